// write: all that may refuse it comes before the change.
ghost use Rattle.model.specs.Calls.{Call, Does};
ghost use Rattle.files.specs.Lookup.{Readable};
ghost use Rattle.files.specs.Told.{told_number};

use files::changeable_fork;
use forks::{needed_blocks, taken_blocks};
use model::{Fork, Refusal, VolumeFacts};

// On an accepted image, whose facts are f.
pub fn serve_write(
    image: &mut [u8],
    f: VolumeFacts,
    name: &[u8],
    fork: Fork,
    offset: u64,
    bytes: &[u8],
    changed: u32,
) -> Result<(), Refusal>
    requires { Readable f image.old }
    ensures { Does (Call.write name.now fork offset bytes.now changed) image.old (told_number result) image.new }
{
    let named = changeable_fork(image, f, name, fork, offset)?;
    let (e, g) = (named.entry, named.facts);
    let at = offset as usize;
    let needed = needed_blocks(f, g, at, bytes.len())?;
    let taken = taken_blocks(f, g, f.free_blocks, needed);
    crate::grow::grow_fork(image, f, e, fork, g, taken, at, bytes, changed);
    Ok(())
}
