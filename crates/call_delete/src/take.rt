// A file taken out.
ghost use Rattle.files.specs.Leaves.{Deleted};
ghost use Rattle.files.specs.Lookup.{FileAt};

use directory::EntryAt;
use entries::{put_files, put_free};
use model::{Fork, VolumeFacts, block_count};

// Frees both forks' blocks, takes the entry out of its directory block and lowers the number of files.
pub fn take_file(image: &mut [u8], f: VolumeFacts, e: EntryAt)
    requires { FileAt f image.old e }
    ensures { Deleted f image.old e image.new }
{
    let n = f.allocation_blocks;
    let a = f.block_size;
    let data = directory::read_fork(image, e, Fork::Data);
    let resource = directory::read_fork(image, e, Fork::Resource);
    let in_data = block_count(data, a) as u16;
    let in_resource = block_count(resource, a) as u16;
    blockmap::free_chain(image, n, data.start, in_data);
    blockmap::free_chain(image, n, resource.start, in_resource);
    entries::remove_entry(image, e);
    put_files(image, f.files - 1);
    put_free(image, f.free_blocks + in_data + in_resource);
}
