// wrap: a bare 400K image as a Disk Copy 4.2 file.
ghost use Rattle.model.specs.Calls.{Call, Does, only};
ghost use Rattle.model.specs.Refusals.{done_number};

use crate::checking::check;
use model::Refusal;

// Wraps an accepted image: the buffer then holds the file.
pub fn wrap(image: &[u8], name: &[u8], format: u8, buffer: &mut [u8]) -> Result<(), Refusal>
    ensures { Does (Call.wrap name.now format buffer.old) image.now (only (done_number result) buffer.new) image.now }
{
    if container::bad_lengths(image.len(), buffer.len(), name.len()) {
        return Err(Refusal::BadHeader);
    }
    check(image)?;
    container::fill(buffer, image, name, format);
    Ok(())
}
