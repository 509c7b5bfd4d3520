// What the calls that tell of a fork answer on an accepted image, whose facts are f.
ghost use Rattle.model.specs.Calls.{Call, Does};
ghost use Rattle.files.specs.Lookup.{Readable};
ghost use Rattle.files.specs.Told.{told_block, told_read};

use files::lookup;
use forks::copy_fork;
use model::{AllocationBlock, Fork, Refusal, VolumeFacts, block_count};

pub fn serve_block(
    image: &[u8],
    f: VolumeFacts,
    name: &[u8],
    fork: Fork,
    place: u64,
) -> Result<AllocationBlock, Refusal>
    requires { Readable f image.now }
    ensures { Does (Call.block name.now fork place) image.now (told_block result) image.now }
{
    let named = lookup(image, f, name)?;
    let g = directory::read_fork(image, named.entry, fork);
    if block_count(g, f.block_size) as u64 <= place {
        return Err(Refusal::BeyondEnd);
    }
    Ok(blockmap::block_at(image, g.start, place as u16))
}

pub fn serve_read(
    image: &[u8],
    f: VolumeFacts,
    name: &[u8],
    fork: Fork,
    offset: u64,
    buffer: &mut [u8],
) -> Result<usize, Refusal>
    requires { Readable f image.now }
    ensures { Does (Call.read name.now fork offset buffer.old) image.now (told_read result buffer.new) image.now }
{
    let named = lookup(image, f, name)?;
    let g = directory::read_fork(image, named.entry, fork);
    if (g.logical as u64) < offset {
        return Err(Refusal::BeyondEnd);
    }
    let start = f.allocation_start;
    Ok(copy_fork(image, start, f.block_size, g, offset as usize, buffer))
}
