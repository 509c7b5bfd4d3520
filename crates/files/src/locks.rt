// Locks of the volume and of a file.
ghost use Rattle.std.specs.Prelude.{◌≡◌};
ghost use Rattle.model.specs.Bytes.{byte};
ghost use Rattle.model.specs.Directory.{flags_lock};
ghost use Rattle.model.specs.Facts.{is_locked};
ghost use Rattle.directory.specs.Cursor.{bytes_at, Stands};

use directory::EntryAt;
use model::VolumeFacts;

// Whether the volume is locked.
pub fn is_locked(f: VolumeFacts) -> bool
    ensures { result ≡ is_locked f }
{
    let attributes = f.attributes;
    if (attributes >> 7) % 2 == 1 {
        return true;
    }
    (attributes >> 15) % 2 == 1
}

// Whether the file is locked.
pub fn file_locked(image: &[u8], e: EntryAt) -> bool
    requires { Stands image.now e }
    ensures { result ≡ flags_lock (byte (bytes_at image.now e) 0) }
{
    let at = e.start + EntryAt::FLAGS_AT;
    image[at] % 2 == 1
}
