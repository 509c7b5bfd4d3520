// A line of text, put together in fixed memory and written whole. What the memory has no room for is left out.
#![tactic(auto)]

ghost use Rattle.std.specs.Prelude.{◌≡◌, length};

pub mod streams;

use std::fmt::Display;
use std::io::{Cursor, Write};

// The most bytes of a line, its end among them.
pub const ROOM: usize = 1_024;

// Copies of a byte. Only their number is known, so that a proof never looks at each of them.
pub fn filled<const N: usize>(b: u8) -> [u8; N]
    ensures { N ≡ length result }
{
    [b; N]
}

// The first n bytes, or all where there are fewer.
pub fn first(s: &[u8], n: usize) -> &[u8] {
    s.get(..n).unwrap_or(s)
}

// Writes the text as a line, or what the writer takes of it before it fails.
pub fn print<W: Write, D: Display + Drop>(out: &mut W, text: D) {
    let mut line = Cursor::new(filled::<ROOM>(0));
    let _ = writeln!(line, "{text}");
    let n = line.position() as usize;
    let _ = out.write_all(first(line.get_ref(), n));
}
