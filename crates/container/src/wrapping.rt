// A bare 400K image wrapped: the lengths that it asks for, and the buffer filled.
ghost use Rattle.std.specs.Prelude.{◌≡◌, ◌≤◌, length};
ghost use Rattle.model.specs.Container.{bad_lengths, header_for, wrapping};

use crate::header::{
    DATA_SIZE, DATA_SIZE_AT, DATA_SUM_AT, FORMAT_AT, MARK, MARK_AT, MOST_NAME, NAME_AT,
    NAME_LENGTH_AT, UNTAGGED_SIZE,
};
use crate::parts::DATA_AT;
use crate::sum::checksum;
use entries::{put16_at, put32_at};

// 22.
pub fn bad_lengths(image: usize, buffer: usize, name: usize) -> bool
    ensures { result ≡ bad_lengths image buffer name }
{
    image != DATA_SIZE as usize || buffer != UNTAGGED_SIZE || (MOST_NAME as usize) < name
}

// The header of a file without tags.
fn new_header(name: &[u8], format: u8, sum: u32) -> [u8; DATA_AT]
    requires { length name.now ≤ 63 }
    ensures { result ≡ header_for name.now format sum }
{
    let mut header = [0; DATA_AT];
    header[NAME_LENGTH_AT] = name.len() as u8;
    header[FORMAT_AT] = format;
    put32_at(&mut header, DATA_SIZE_AT, DATA_SIZE);
    put32_at(&mut header, DATA_SUM_AT, sum);
    put16_at(&mut header, MARK_AT, MARK);
    header[NAME_AT..NAME_AT + name.len()].copy_from_slice(name);
    header
}

// Fills the buffer with the image wrapped.
pub fn fill(buffer: &mut [u8], image: &[u8], name: &[u8], format: u8)
    requires { (length buffer.old ≡ 409684) × (length image.now ≡ 409600) × (length name.now ≤ 63) }
    ensures { buffer.new ≡ wrapping image.now name.now format }
{
    buffer[..DATA_AT].copy_from_slice(&new_header(name, format, checksum(image)));
    buffer[DATA_AT..].copy_from_slice(image);
}
