// The calls on wrapped files, and a bare image wrapped. `file` is the whole Disk Copy 4.2 file.
ghost use Rattle.model.specs.Calls.{Call, Does, only};
ghost use Rattle.model.specs.Wrapped.{DoesWrapped};
ghost use Rattle.archive.specs.Told.{told_check, told_entry, told_find, told_block, told_read, told_number};
ghost use Rattle.archive.specs.Forks.{fork_numbered};

use crate::answers::{BlockAnswer, CheckAnswer, EntryAnswer, FindAnswer, ReadAnswer};
use crate::fork_numbered;
use model::done_number;

// Wraps an accepted 400K image: the buffer then holds the file.
#[unsafe(no_mangle)]
pub extern "C" fn mfs_wrap(image: &[u8], name: &[u8], format: u8, buffer: &mut [u8]) -> u8
    ensures { Does (Call.wrap name.now format buffer.old) image.now (only result buffer.new) image.now }
{
    done_number(volume::wrap(image, name, format, buffer))
}

// Checks the container and the volume inside, and gives its facts.
#[unsafe(no_mangle)]
pub extern "C" fn mfs_wrapped_check(file: &[u8]) -> CheckAnswer
    ensures { DoesWrapped Call.check file.now (told_check result) file.now }
{
    CheckAnswer::from(wrapped::check(file))
}

// The entry at a place in directory order.
#[unsafe(no_mangle)]
pub extern "C" fn mfs_wrapped_entry(file: &[u8], place: u64) -> EntryAnswer
    ensures { DoesWrapped (Call.entry place) file.now (told_entry result) file.now }
{
    EntryAnswer::from(wrapped::entry(file, place))
}

// The place and the entry of a name.
#[unsafe(no_mangle)]
pub extern "C" fn mfs_wrapped_find(file: &[u8], name: &[u8]) -> FindAnswer
    ensures { DoesWrapped (Call.find name.now) file.now (told_find result) file.now }
{
    FindAnswer::from(wrapped::find(file, name))
}

// The allocation block at a place in a fork.
#[unsafe(no_mangle)]
pub extern "C" fn mfs_wrapped_block(file: &[u8], name: &[u8], fork: u8, place: u64) -> BlockAnswer
    ensures { DoesWrapped (Call.block name.now (fork_numbered fork) place) file.now (told_block result) file.now }
{
    BlockAnswer::from(wrapped::block(file, name, fork_numbered(fork), place))
}

// Reads fork bytes from an offset on into the buffer.
#[unsafe(no_mangle)]
pub extern "C" fn mfs_wrapped_read(
    file: &[u8],
    name: &[u8],
    fork: u8,
    offset: u64,
    buffer: &mut [u8],
) -> ReadAnswer
    ensures { DoesWrapped (Call.read name.now (fork_numbered fork) offset buffer.old) file.now (told_read result buffer.new) file.now }
{
    ReadAnswer::from(wrapped::read(file, name, fork_numbered(fork), offset, buffer))
}

// Puts in an empty file.
#[unsafe(no_mangle)]
pub extern "C" fn mfs_wrapped_create(
    file: &mut [u8],
    name: &[u8],
    finder: &[u8; 16],
    created: u32,
    changed: u32,
) -> u8
    ensures { DoesWrapped (Call.create name.now finder.now created changed) file.old (told_number result) file.new }
{
    done_number(wrapped::create(file, name, finder, created, changed))
}

// Stores bytes in a fork from an offset on; the fork grows where they reach behind its end.
#[unsafe(no_mangle)]
pub extern "C" fn mfs_wrapped_write(
    file: &mut [u8],
    name: &[u8],
    fork: u8,
    offset: u64,
    bytes: &[u8],
    changed: u32,
) -> u8
    ensures { DoesWrapped (Call.write name.now (fork_numbered fork) offset bytes.now changed) file.old (told_number result) file.new }
{
    done_number(wrapped::write(file, name, fork_numbered(fork), offset, bytes, changed))
}

// Cuts a fork to its first bytes, as many as the size says.
#[unsafe(no_mangle)]
pub extern "C" fn mfs_wrapped_cut(
    file: &mut [u8],
    name: &[u8],
    fork: u8,
    size: u64,
    changed: u32,
) -> u8
    ensures { DoesWrapped (Call.cut name.now (fork_numbered fork) size changed) file.old (told_number result) file.new }
{
    done_number(wrapped::cut(file, name, fork_numbered(fork), size, changed))
}

// Takes a file out.
#[unsafe(no_mangle)]
pub extern "C" fn mfs_wrapped_delete(file: &mut [u8], name: &[u8]) -> u8
    ensures { DoesWrapped (Call.delete name.now) file.old (told_number result) file.new }
{
    done_number(wrapped::delete(file, name))
}
