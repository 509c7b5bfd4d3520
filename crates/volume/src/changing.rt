// The calls that change the image: each checks the volume, then answers.
ghost use Rattle.model.specs.Calls.{Call, Does};
ghost use Rattle.files.specs.Told.{told_number};

use crate::checking::check;
use call_create::serve_create;
use call_cut::serve_cut;
use call_delete::serve_delete;
use call_rename::serve_rename;
use call_write::serve_write;
use model::{Fork, Refusal};

// Puts in an empty file.
pub fn create(
    image: &mut [u8],
    name: &[u8],
    finder: &[u8; 16],
    created: u32,
    changed: u32,
) -> Result<(), Refusal>
    ensures { Does (Call.create name.now finder.now created changed) image.old (told_number result) image.new }
{
    call_create::whole(finder);
    let facts = check(image)?;
    serve_create(image, facts, name, finder, created, changed)
}

// Stores bytes in a fork from an offset on; the fork grows where they reach behind its end.
pub fn write(
    image: &mut [u8],
    name: &[u8],
    fork: Fork,
    offset: u64,
    bytes: &[u8],
    changed: u32,
) -> Result<(), Refusal>
    ensures { Does (Call.write name.now fork offset bytes.now changed) image.old (told_number result) image.new }
{
    let facts = check(image)?;
    serve_write(image, facts, name, fork, offset, bytes, changed)
}

// Cuts a fork to its first bytes, as many as the size says.
pub fn cut(
    image: &mut [u8],
    name: &[u8],
    fork: Fork,
    size: u64,
    changed: u32,
) -> Result<(), Refusal>
    ensures { Does (Call.cut name.now fork size changed) image.old (told_number result) image.new }
{
    let facts = check(image)?;
    serve_cut(image, facts, name, fork, size, changed)
}

// Takes a file out.
pub fn delete(image: &mut [u8], name: &[u8]) -> Result<(), Refusal>
    ensures { Does (Call.delete name.now) image.old (told_number result) image.new }
{
    let facts = check(image)?;
    serve_delete(image, facts, name)
}

// Gives a file another name and change date.
pub fn rename(image: &mut [u8], name: &[u8], new: &[u8], changed: u32) -> Result<(), Refusal>
    ensures { Does (Call.rename name.now new.now changed) image.old (told_number result) image.new }
{
    let facts = check(image)?;
    serve_rename(image, facts, name, new, changed)
}
