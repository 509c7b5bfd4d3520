// delete: all that may refuse it comes before the change.
ghost use Rattle.model.specs.Calls.{Call, Does};
ghost use Rattle.files.specs.Lookup.{Readable};
ghost use Rattle.files.specs.Told.{told_number};

use files::changeable;
use model::{Refusal, VolumeFacts};

// On an accepted image, whose facts are f.
pub fn serve_delete(image: &mut [u8], f: VolumeFacts, name: &[u8]) -> Result<(), Refusal>
    requires { Readable f image.old }
    ensures { Does (Call.delete name.now) image.old (told_number result) image.new }
{
    let named = changeable(image, f, name)?;
    crate::take::take_file(image, f, named.entry);
    Ok(())
}
