// cut: all that may refuse it comes before the change.
ghost use Rattle.model.specs.Calls.{Call, Does};
ghost use Rattle.files.specs.Lookup.{Readable};
ghost use Rattle.files.specs.Told.{told_number};

use files::changeable_fork;
use model::{Fork, Refusal, VolumeFacts};

// On an accepted image, whose facts are f.
pub fn serve_cut(
    image: &mut [u8],
    f: VolumeFacts,
    name: &[u8],
    fork: Fork,
    size: u64,
    changed: u32,
) -> Result<(), Refusal>
    requires { Readable f image.old }
    ensures { Does (Call.cut name.now fork size changed) image.old (told_number result) image.new }
{
    let named = changeable_fork(image, f, name, fork, size)?;
    let (e, g) = (named.entry, named.facts);
    crate::shorten::shorten_fork(image, f, e, fork, g, size as u32, changed);
    Ok(())
}
