// The fields of a record, as they come on the input.
ghost use Rattle.std.specs.Prelude.{◌≤◌, length, IfOk};

use model::Fork;
use std::error::Error;
use std::fmt;
use std::io::Read;
use text::streams;

// The most bytes of a name.
pub const MOST_NAME: usize = 1_024;

// Why a run ends before its input does.
#[derive(Clone, Copy, Debug, PartialEq, Eq)]
pub enum Stop {
    BadRecord,
    TooLong,
    Unreadable,
}

impl fmt::Display for Stop {
    fn fmt<W: fmt::Write>(&self, f: &mut fmt::Formatter<W>) -> fmt::Result {
        match self {
            Stop::BadRecord => write!(f, "bad record"),
            Stop::TooLong => write!(f, "too long"),
            Stop::Unreadable => write!(f, "standard input can't be read"),
        }
    }
}

impl Error for Stop {}

// The tag of the next record, or none at the input's end.
pub fn next_tag<R: Read>(reader: &mut R) -> Result<Option<u8>, Stop> {
    let mut tag = [0];
    match reader.read(&mut tag) {
        Ok(0) => Ok(None),
        Ok(_) => Ok(Some(tag[0])),
        Err(_) => Err(Stop::Unreadable),
    }
}

// Within a record, a read that fails is taken for the input's end.
fn fill<R: Read>(reader: &mut R, space: &mut [u8]) -> Result<(), Stop> {
    if streams::read_full(reader, space) < space.len() {
        return Err(Stop::BadRecord);
    }
    Ok(())
}

pub fn array<const N: usize, R: Read>(reader: &mut R) -> Result<[u8; N], Stop> {
    let mut bytes = [0; N];
    fill(reader, &mut bytes)?;
    Ok(bytes)
}

pub fn byte<R: Read>(reader: &mut R) -> Result<u8, Stop> {
    Ok(u8::from_be_bytes(array(reader)?))
}

// A date or a length.
pub fn number32<R: Read>(reader: &mut R) -> Result<u32, Stop> {
    Ok(u32::from_be_bytes(array(reader)?))
}

// A place or an offset.
pub fn number64<R: Read>(reader: &mut R) -> Result<u64, Stop> {
    Ok(u64::from_be_bytes(array(reader)?))
}

// The first n bytes of the space.
fn part(space: &mut [u8], n: usize) -> Result<&mut [u8], Stop>
    ensures { IfOk result (λ s. length s.now ≤ length space.old) }
{
    space.get_mut(..n).ok_or(Stop::TooLong)
}

// A length, and the part of the space that is as long.
pub fn room<'a, R: Read>(reader: &mut R, space: &'a mut [u8]) -> Result<&'a mut [u8], Stop>
    ensures { IfOk result (λ s. length s.now ≤ length space.old) }
{
    let n = number32(reader)?;
    part(space, n as usize)
}

// The bytes, at the start of the space.
pub fn bytes<'a, R: Read>(reader: &mut R, space: &'a mut [u8]) -> Result<&'a [u8], Stop>
    ensures { IfOk result (λ s. length s.now ≤ length space.old) }
{
    let read = room(reader, space)?;
    fill(reader, read)?;
    Ok(read)
}

// The name, at the start of the space.
pub fn name<'a, R: Read>(reader: &mut R, space: &'a mut [u8]) -> Result<&'a [u8], Stop> {
    let n = u16::from_be_bytes(array(reader)?);
    let read = part(space, n as usize)?;
    fill(reader, read)?;
    Ok(read)
}

// No `TryFrom`, since neither type is of this crate.
fn fork<R: Read>(reader: &mut R) -> Result<Fork, Stop> {
    match byte(reader)? {
        0 => Ok(Fork::Data),
        1 => Ok(Fork::Resource),
        _ => Err(Stop::BadRecord),
    }
}

// A name, a fork of its file, and a place or an offset in that fork. The name is at the start of the space.
pub fn place_in_fork<'a, R: Read>(
    reader: &mut R,
    space: &'a mut [u8],
) -> Result<(&'a [u8], Fork, u64), Stop> {
    let name = name(reader, space)?;
    let fork = fork(reader)?;
    let place = number64(reader)?;
    Ok((name, fork, place))
}
