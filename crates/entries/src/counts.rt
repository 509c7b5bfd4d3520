// The three numbers of the volume that change: files, next file number, free blocks. Each function is one definition of the model
// (with_files, with_next, with_free), which one function with the place for a parameter would not name.
ghost use Rattle.std.specs.Prelude.{◌≡◌, ◌≤◌, length};
ghost use Rattle.model.specs.Calls.{with_files, with_next, with_free};

use crate::numbers::{put16_at, put32_at};
use model::VolumeFacts;

pub fn put_files(image: &mut [u8], n: u16)
    requires { 1088 ≤ length image.old }
    ensures { image.new ≡ with_files n image.old }
{
    put16_at(image, VolumeFacts::AT + VolumeFacts::FILES_AT, n);
}

pub fn put_next(image: &mut [u8], n: u32)
    requires { 1088 ≤ length image.old }
    ensures { image.new ≡ with_next n image.old }
{
    put32_at(image, VolumeFacts::AT + VolumeFacts::NEXT_NUMBER_AT, n);
}

pub fn put_free(image: &mut [u8], n: u16)
    requires { 1088 ≤ length image.old }
    ensures { image.new ≡ with_free n image.old }
{
    put16_at(image, VolumeFacts::AT + VolumeFacts::FREE_BLOCKS_AT, n);
}
