// The entry of a new file, put into its directory block and counted.
ghost use Rattle.std.specs.Prelude.{◌≡◌, length};
ghost use Rattle.model.specs.Bytes.{Bytes};
ghost use Rattle.call_create.specs.Adding.{Adds, with_file};
ghost use Rattle.files.specs.Lookup.{Readable};

use entries::{Room, put_files, put_next};
use model::VolumeFacts;

// Finder bytes come whole: 16 of them, each a byte. A proof learns it of a lent array by its first element.
pub fn whole(finder: &[u8; 16])
    ensures { (length finder.now ≡ 16) × Bytes finder.now }
{
    let bytes: &[u8] = finder;
    let _first = bytes[0];
}

// Puts the entry of an empty file into the directory block where the room is, and counts it.
pub fn add_file(
    image: &mut [u8],
    f: VolumeFacts,
    room: Room,
    name: &[u8],
    finder: &[u8; 16],
    created: u32,
    changed: u32,
)
    requires readable { Readable f image.old }
    requires adds { Adds f image.old (length name.now) room.base room.end }
    ensures { image.new ≡ with_file f image.old name.now finder.now created changed }
{
    whole(finder);
    let number = f.next_number;
    entries::insert_entry(image, room, number, name, finder, created, changed);
    put_next(image, number + 1);
    put_files(image, f.files + 1);
}
