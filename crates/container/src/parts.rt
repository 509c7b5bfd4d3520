// The parts of a file behind its header: data and tags.
ghost use Rattle.std.specs.Prelude.{◌≡◌, ◌≤◌, length};
ghost use Rattle.model.specs.Container.{inside, tags};

use crate::header::UNTAGGED_SIZE;

// Where the data begin.
pub const DATA_AT: usize = 84;

// Where the data end, and with them a file without tags.
pub const DATA_END: usize = UNTAGGED_SIZE;

// The data of a file.
pub fn data(file: &[u8]) -> &[u8]
    requires { 409684 ≤ length file.now }
    ensures { result.now ≡ inside file.now }
{
    &file[DATA_AT..DATA_END]
}

// What lies behind them.
pub fn tags(file: &[u8]) -> &[u8]
    requires { 409684 ≤ length file.now }
    ensures { result.now ≡ tags file.now }
{
    &file[DATA_END..]
}
