// check: refused by the first check that fires, or the volume's facts.
ghost use Rattle.model.specs.Calls.{Call, Does};
ghost use Rattle.files.specs.Told.{told_check};

use model::{Refusal, VolumeFacts};

// Checks the volume and gives its facts.
pub fn check(image: &[u8]) -> Result<VolumeFacts, Refusal>
    ensures { Does Call.check image.now (told_check result) image.now }
{
    if checks::bad_length(image.len()) {
        return Err(Refusal::BadLength);
    }
    let facts = VolumeFacts::read(image);
    checks::judge(image, facts)?;
    Ok(facts)
}
