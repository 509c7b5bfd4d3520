// The data checksum after a change.
ghost use Rattle.std.specs.Prelude.{◌≡◌, ◌≤◌, length};
ghost use Rattle.model.specs.Container.{inside, renewed};

use crate::header::DATA_SUM_AT;
use crate::parts::data;
use crate::sum::checksum;
use entries::put32_at;

// Stores the checksum of the data that the file has.
pub fn renew(file: &mut [u8])
    requires { 409684 ≤ length file.old }
    ensures { file.new ≡ renewed file.old (inside file.old) }
{
    let sum = checksum(data(file));
    put32_at(file, DATA_SUM_AT, sum);
}
