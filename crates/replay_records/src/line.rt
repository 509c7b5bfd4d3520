// What stands in the line of a call: words parted by one space.
ghost use Rattle.std.specs.Prelude.{◌<◌};

use model::{DirectoryEntry, ForkFacts, VolumeFacts};
use std::fmt;

// From 0, for each byte s becomes (31 s + byte) mod 4294967296.
pub fn sum(bytes: &[u8]) -> u32 {
    bytes.iter().fold(0u32, |s, b| {
        s.wrapping_mul(31).wrapping_add(u32::from(*b))
    })
}

// The bytes whose digits are written at once. To write those of each by themselves takes many times as long.
const AT_ONCE: usize = 64;

// Bytes in hex, or `-` where there are none.
#[derive(Clone, Copy)]
struct Hex<'a>(&'a [u8]);

// A digit below 16.
fn digit(n: u8) -> u8
    requires { n < 16 }
{
    if n < 10 { b'0' + n } else { b'a' + (n - 10) }
}

impl fmt::Display for Hex<'_> {
    fn fmt<W: fmt::Write>(&self, f: &mut fmt::Formatter<W>) -> fmt::Result {
        if self.0.is_empty() {
            return f.write_str("-");
        }
        for part in self.0.chunks(AT_ONCE) {
            let mut pairs = [[0u8; 2]; AT_ONCE];
            for (pair, b) in pairs.iter_mut().zip(part) {
                *pair = [digit(b / 16), digit(b % 16)];
            }
            let digits = pairs.get(..part.len()).unwrap_or(&pairs).as_flattened();
            f.write_str(str::from_utf8(digits).map_err(|_| fmt::Error)?)?;
        }
        Ok(())
    }
}

// FACTS of docs/REPLAY.md.
#[derive(Clone, Copy)]
pub struct Facts<'a>(pub &'a VolumeFacts);

impl fmt::Display for Facts<'_> {
    fn fmt<W: fmt::Write>(&self, f: &mut fmt::Formatter<W>) -> fmt::Result {
        let v = self.0;
        write!(
            f,
            "{} {} {} {} {} {} ",
            v.created, v.backup, v.attributes, v.files, v.directory_start.0, v.directory_length,
        )?;
        write!(
            f,
            "{} {} {} {} {} {} ",
            v.allocation_blocks,
            v.block_size,
            v.clump_size,
            v.allocation_start.0,
            v.next_number,
            v.free_blocks,
        )?;
        write!(f, "{}", Hex(text::first(&v.name, v.name_length as usize)))
    }
}

// A fork's start and its two lengths.
#[derive(Clone, Copy)]
struct Extent(ForkFacts);

impl fmt::Display for Extent {
    fn fmt<W: fmt::Write>(&self, f: &mut fmt::Formatter<W>) -> fmt::Result {
        let fork = self.0;
        write!(f, "{} {} {}", fork.start.0, fork.logical, fork.physical)
    }
}

// ENTRY of docs/REPLAY.md.
#[derive(Clone, Copy)]
pub struct Entry<'a>(pub &'a DirectoryEntry);

impl fmt::Display for Entry<'_> {
    fn fmt<W: fmt::Write>(&self, f: &mut fmt::Formatter<W>) -> fmt::Result {
        let e = self.0;
        let name = Hex(text::first(&e.name, e.name_length as usize));
        write!(f, "{} {} {} ", e.flags, Hex(&e.finder), e.number)?;
        write!(f, "{} {} ", Extent(e.data), Extent(e.resource))?;
        write!(f, "{} {} {name}", e.created, e.changed)
    }
}
