// quick find: is the name there? It runs checks 1 to 4 alone.
ghost use Rattle.model.specs.Calls.{Call, Does};
ghost use Rattle.files.specs.Told.{told_quick_find};

use call_quick_find::serve_quick_find;
use files::{QuickFound, QuickRefusal};
use model::{Refusal, VolumeFacts};

// The place and the entry of a name, from the volume information and the directory blocks up to the one that has it, and how many blocks
// these are.
pub fn quick_find(image: &[u8], name: &[u8]) -> Result<QuickFound, QuickRefusal>
    ensures { Does (Call.quick_find name.now) image.now (told_quick_find result) image.now }
{
    if checks::bad_length(image.len()) {
        return Err(QuickRefusal::from(Refusal::BadLength));
    }
    let facts = VolumeFacts::read(image);
    checks::judge_facts(facts, image.len() / 512)?;
    serve_quick_find(image, facts, name)
}
