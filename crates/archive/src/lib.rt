// The calls for programs in C and other languages: each is the call of `volume` or of `wrapped`, with a number for the fork.
// include/mfs.h declares them. C calls each by its name, so each is a function of its own, however alike.
#![tactic(auto)]

ghost use Rattle.std.specs.Prelude.{◌≡◌};
ghost use Rattle.model.specs.Calls.{Call, Does};
ghost use Rattle.archive.specs.Told.{told_check, told_entry, told_find, told_block, told_read, told_number, told_quick_find};
ghost use Rattle.archive.specs.Forks.{fork_numbered};

mod answers;
mod wrapped_files;

pub use answers::{BlockAnswer, CheckAnswer, EntryAnswer, FindAnswer, QuickFindAnswer, ReadAnswer};
use model::{Fork, done_number};
pub use wrapped_files::{
    mfs_wrap, mfs_wrapped_block, mfs_wrapped_check, mfs_wrapped_create, mfs_wrapped_cut,
    mfs_wrapped_delete, mfs_wrapped_entry, mfs_wrapped_find, mfs_wrapped_read, mfs_wrapped_write,
};

// The fork of a number: 0 is the data fork, every other number the resource fork. No number is refused, as C's interface says; no `From`,
// since neither type is of this crate.
fn fork_numbered(number: u8) -> Fork
    ensures { result ≡ fork_numbered number }
{
    if number == 0 {
        return Fork::Data;
    }
    Fork::Resource
}

// Checks the volume and gives its facts.
#[unsafe(no_mangle)]
pub extern "C" fn mfs_check(image: &[u8]) -> CheckAnswer
    ensures { Does Call.check image.now (told_check result) image.now }
{
    CheckAnswer::from(volume::check(image))
}

// The entry at a place in directory order.
#[unsafe(no_mangle)]
pub extern "C" fn mfs_entry(image: &[u8], place: u64) -> EntryAnswer
    ensures { Does (Call.entry place) image.now (told_entry result) image.now }
{
    EntryAnswer::from(volume::entry(image, place))
}

// The place and the entry of a name.
#[unsafe(no_mangle)]
pub extern "C" fn mfs_find(image: &[u8], name: &[u8]) -> FindAnswer
    ensures { Does (Call.find name.now) image.now (told_find result) image.now }
{
    FindAnswer::from(volume::find(image, name))
}

// The allocation block at a place in a fork.
#[unsafe(no_mangle)]
pub extern "C" fn mfs_block(image: &[u8], name: &[u8], fork: u8, place: u64) -> BlockAnswer
    ensures { Does (Call.block name.now (fork_numbered fork) place) image.now (told_block result) image.now }
{
    BlockAnswer::from(volume::block(image, name, fork_numbered(fork), place))
}

// Reads fork bytes from an offset on into the buffer.
#[unsafe(no_mangle)]
pub extern "C" fn mfs_read(
    image: &[u8],
    name: &[u8],
    fork: u8,
    offset: u64,
    buffer: &mut [u8],
) -> ReadAnswer
    ensures { Does (Call.read name.now (fork_numbered fork) offset buffer.old) image.now (told_read result buffer.new) image.now }
{
    ReadAnswer::from(volume::read(image, name, fork_numbered(fork), offset, buffer))
}

// Puts in an empty file.
#[unsafe(no_mangle)]
pub extern "C" fn mfs_create(
    image: &mut [u8],
    name: &[u8],
    finder: &[u8; 16],
    created: u32,
    changed: u32,
) -> u8
    ensures { Does (Call.create name.now finder.now created changed) image.old (told_number result) image.new }
{
    done_number(volume::create(image, name, finder, created, changed))
}

// Stores bytes in a fork from an offset on; the fork grows where they reach behind its end.
#[unsafe(no_mangle)]
pub extern "C" fn mfs_write(
    image: &mut [u8],
    name: &[u8],
    fork: u8,
    offset: u64,
    bytes: &[u8],
    changed: u32,
) -> u8
    ensures { Does (Call.write name.now (fork_numbered fork) offset bytes.now changed) image.old (told_number result) image.new }
{
    done_number(volume::write(image, name, fork_numbered(fork), offset, bytes, changed))
}

// Cuts a fork to its first bytes, as many as the size says.
#[unsafe(no_mangle)]
pub extern "C" fn mfs_cut(image: &mut [u8], name: &[u8], fork: u8, size: u64, changed: u32) -> u8
    ensures { Does (Call.cut name.now (fork_numbered fork) size changed) image.old (told_number result) image.new }
{
    done_number(volume::cut(image, name, fork_numbered(fork), size, changed))
}

// Takes a file out.
#[unsafe(no_mangle)]
pub extern "C" fn mfs_delete(image: &mut [u8], name: &[u8]) -> u8
    ensures { Does (Call.delete name.now) image.old (told_number result) image.new }
{
    done_number(volume::delete(image, name))
}

// The place and the entry of a name, from checks 1 to 4 and the directory blocks up to the one that has it.
#[unsafe(no_mangle)]
pub extern "C" fn mfs_quick_find(image: &[u8], name: &[u8]) -> QuickFindAnswer
    ensures { Does (Call.quick_find name.now) image.now (told_quick_find result) image.now }
{
    QuickFindAnswer::from(volume::quick_find(image, name))
}

// Gives a file another name and change date.
#[unsafe(no_mangle)]
pub extern "C" fn mfs_rename(image: &mut [u8], name: &[u8], new: &[u8], changed: u32) -> u8
    ensures { Does (Call.rename name.now new.now changed) image.old (told_number result) image.new }
{
    done_number(volume::rename(image, name, new, changed))
}
