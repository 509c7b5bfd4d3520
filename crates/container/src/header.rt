// The header of a Disk Copy 4.2 file, and refusals 22 to 24.
ghost use Rattle.std.specs.Prelude.{◌≡◌, ◌≤◌, length};
ghost use Rattle.model.specs.Container.{tags, tag_checksum, bad_size, fires22, container_verdict};
ghost use Rattle.model.specs.Refusals.{done_number};

use crate::parts::{data, tags};
use crate::sum::checksum;
use model::{Refusal, be16_at, be32_at};

// Where the header's fields stand, what they hold, and how long a file is.
pub const NAME_LENGTH_AT: usize = 0;

pub const NAME_AT: usize = 1;

pub const DATA_SIZE_AT: usize = 64;

const TAG_SIZE_AT: usize = 68;

pub const DATA_SUM_AT: usize = 72;

const TAG_SUM_AT: usize = 76;

const ENCODING_AT: usize = 80;

pub const FORMAT_AT: usize = 81;

pub const MARK_AT: usize = 82;

pub const MOST_NAME: u8 = 63;

pub const DATA_SIZE: u32 = 409600;

const TAG_SIZE: u32 = 9600;

pub const UNTAGGED_SIZE: usize = 409684;

// The tag sum leaves out the first bytes.
const LEFT_OUT: usize = 12;

pub const MARK: u16 = 0x100;

// A file has no tags or all of them.
fn bad_size(size: usize, tag: u32) -> bool
    ensures { result ≡ bad_size size tag }
{
    (tag != 0 && tag != TAG_SIZE) || size != UNTAGGED_SIZE + tag as usize
}

// 22.
fn bad_header(file: &[u8]) -> bool
    ensures { result ≡ fires22 file.now }
{
    file.len() < UNTAGGED_SIZE
        || bad_size(file.len(), be32_at(file, TAG_SIZE_AT))
        || MOST_NAME < file[NAME_LENGTH_AT]
        || be32_at(file, DATA_SIZE_AT) != DATA_SIZE
        || file[ENCODING_AT] != 0
        || be16_at(file, MARK_AT) != MARK
}

// The tag sum: it is 0 without tags.
fn tag_sum(file: &[u8]) -> u32
    requires { 409684 ≤ length file.now }
    ensures { result ≡ tag_checksum (tags file.now) }
{
    match tags(file).get(LEFT_OUT..) {
        Some(counted) => checksum(counted),
        None => 0,
    }
}

// The first of 22, 23 and 24 that fires.
pub fn judge(file: &[u8]) -> Result<(), Refusal>
    ensures { done_number result ≡ container_verdict file.now }
{
    if bad_header(file) {
        Err(Refusal::BadHeader)
    } else if be32_at(file, DATA_SUM_AT) != checksum(data(file)) {
        Err(Refusal::BadDataSum)
    } else if be32_at(file, TAG_SUM_AT) != tag_sum(file) {
        Err(Refusal::BadTagSum)
    } else {
        Ok(())
    }
}
