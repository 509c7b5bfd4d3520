// Checks 1 to 4: what the length of the image and the volume facts may be.
ghost use Rattle.std.specs.Prelude.{◌≡◌};
ghost use Rattle.model.specs.Check.{fires1, fires3, facts_number};
ghost use Rattle.model.specs.Refusals.{done_number};
ghost use Rattle.checks.specs.Limits.{Sized};

use model::{Refusal, VolumeFacts};

// Check 1.
pub fn bad_length(size: usize) -> bool
    ensures { result ≡ fires1 size }
{
    if size % 512 != 0 {
        return true;
    }
    let blocks = size / 512;
    if blocks < VolumeFacts::LEAST_BLOCKS {
        return true;
    }
    VolumeFacts::MOST_BLOCKS < blocks
}

// Check 3, of an image of so many blocks.
fn bad_layout(f: VolumeFacts, blocks: usize) -> bool
    requires { Sized f blocks }
    ensures { result ≡ fires3 f blocks }
{
    let a = f.block_size;
    if a % 512 != 0 {
        return true;
    }
    if a < VolumeFacts::LEAST_BLOCK_SIZE {
        return true;
    }
    if VolumeFacts::MOST_BLOCK_SIZE < a {
        return true;
    }
    let n = f.allocation_blocks;
    if n < 1 {
        return true;
    }
    if VolumeFacts::MOST_ALLOCATION_BLOCKS < n {
        return true;
    }
    let length = f.directory_length;
    if length < 1 {
        return true;
    }
    if VolumeFacts::MOST_DIRECTORY_BLOCKS < length {
        return true;
    }
    let start = f.directory_start.0;
    if start < VolumeFacts::LEAST_DIRECTORY_START {
        return true;
    }
    let s = f.allocation_start.0;
    if s < start + length as u32 {
        return true;
    }
    let end = s + n as u32 * a / 512;
    if blocks - 2 < end as usize {
        return true;
    }
    f.next_number == 0
}

// Checks 2 to 4.
pub fn judge_facts(f: VolumeFacts, blocks: usize) -> Result<(), Refusal>
    requires { Sized f blocks }
    ensures { done_number result ≡ facts_number f blocks }
{
    if f.signature != VolumeFacts::SIGNATURE {
        return Err(Refusal::BadSignature);
    }
    if bad_layout(f, blocks) {
        return Err(Refusal::BadLayout);
    }
    if VolumeFacts::MOST_NAME < f.name_length as usize {
        return Err(Refusal::BadVolumeName);
    }
    Ok(())
}
