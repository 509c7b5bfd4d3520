// Whichever call is made, it is an event of the claim on every run.
ghost use Rattle.volume.specs.Happens.{call_of, Happens};

use crate::changing::{create, cut, delete, rename, write};
use crate::checking::check;
use crate::quick::quick_find;
use crate::reading::{block, entry, find, read};
use crate::wrapping::wrap;
use crate::{Outcome, Wanted};
use model::Fork;

// Makes the call that is wanted with what it needs of all this, and gives back what that call gives. A rename takes the bytes for the
// new name. Its parameters are those of `call_of`, by which the claim names a call.
pub fn make_call(
    image: &mut [u8],
    wanted: Wanted,
    name: &[u8],
    fork: Fork,
    place: u64,
    buffer: &mut [u8],
    finder: &[u8; 16],
    bytes: &[u8],
    created: u32,
    changed: u32,
    format: u8,
) -> Outcome
    ensures { Happens (call_of wanted name.now fork place buffer.old finder.now bytes.now created changed format) image.old result buffer.old buffer.new image.new }
{
    match wanted {
        Wanted::Check => Outcome::from(check(image)),
        Wanted::Entry => Outcome::from(entry(image, place)),
        Wanted::Find => Outcome::from(find(image, name)),
        Wanted::Block => Outcome::from(block(image, name, fork, place)),
        Wanted::Read => Outcome::from(read(image, name, fork, place, buffer)),
        Wanted::Create => Outcome::from(create(image, name, finder, created, changed)),
        Wanted::Write => Outcome::from(write(image, name, fork, place, bytes, changed)),
        Wanted::Cut => Outcome::from(cut(image, name, fork, place, changed)),
        Wanted::Delete => Outcome::from(delete(image, name)),
        Wanted::Wrap => Outcome::from(wrap(image, name, format, buffer)),
        Wanted::Rename => Outcome::from(rename(image, name, bytes, changed)),
        Wanted::QuickFind => Outcome::from(quick_find(image, name)),
    }
}
