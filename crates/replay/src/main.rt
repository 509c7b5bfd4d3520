// Carries out the records on standard input over one image, bare or wrapped, and prints a line for each call.
#![tactic(auto)]

ghost use Rattle.std.specs.Prelude.{◌≤◌};
ghost use Rattle.replay.specs.declared.TheConstants.{MOST};

mod calls;
mod changes;
mod disk;

use calls::Record;
use disk::{Bare, Wrapped};
use replay_records::input;
use replay_records::input::Stop;
use std::io::{Read, Write};

// The most bytes of an image, and of the buffer that one is wrapped into.
pub const MOST: usize = 419_328;

// What the image is: a volume as it stands, or a wrapped file. The type that stands for it, `Bare` or `Wrapped`, is chosen in `carry_out`
// alone.
#[derive(Clone, Copy, Debug, PartialEq, Eq)]
enum Form {
    Bare,
    Wrapped,
}

// The image is the space's first bytes. The memory is fixed: a Vec could fail to grow, and what this program prints has no word for that.
#[derive(Drop)]
struct Image {
    space: [u8; MOST],
    length: usize,
    form: Form,
    ghost fits: { length ≤ MOST },
}

impl Image {
    fn empty() -> Image {
        Image {
            space: text::filled::<MOST>(0),
            length: 0,
            form: Form::Bare,
        }
    }

    fn bytes(&mut self) -> &mut [u8] {
        let n = self.length;
        first(&mut self.space, n)
    }

    // Puts the bytes of a record in the place of the image.
    fn load<R: Read>(&mut self, reader: &mut R, form: Form) -> Result<(), Stop> {
        self.length = input::bytes(reader, &mut self.space)?.len();
        self.form = form;
        Ok(())
    }
}

// A function of its own, since a part of a field is lent from a struct with a ghost field only by a call (the proof of
// `&mut self.space[..n]` in `bytes` does not close).
fn first(space: &mut [u8; MOST], n: usize) -> &mut [u8]
    requires { n ≤ MOST }
{
    &mut space[..n]
}

// Carries out a record.
fn carry_out<R: Read, W: Write>(
    reader: &mut R,
    out: &mut W,
    tag: u8,
    image: &mut Image,
) -> Result<(), Stop> {
    match tag {
        b'I' => image.load(reader, Form::Bare),
        b'X' => image.load(reader, Form::Wrapped),
        _ => {
            let form = image.form;
            let mut record = Record {
                reader,
                out,
                image: image.bytes(),
            };
            match form {
                Form::Bare => record.call(tag, &Bare),
                Form::Wrapped => record.call(tag, &Wrapped),
            }
        }
    }
}

// A loop has to end, and nothing says that the input does: so it ends after a number of records that no run has.
fn run<R: Read, W: Write>(reader: &mut R, out: &mut W, image: &mut Image) -> Result<(), Stop> {
    for _ in 0..u64::MAX {
        let Some(tag) = input::next_tag(reader)? else {
            return Ok(());
        };
        carry_out(reader, out, tag, image)?;
    }
    Ok(())
}

fn main(rt: HostRuntime) {
    let mut out = rt.stdout();
    if let Err(stop) = run(&mut rt.stdin(), &mut out, &mut Image::empty()) {
        match stop {
            Stop::BadRecord | Stop::TooLong => text::print(&mut out, stop),
            Stop::Unreadable => text::print(&mut rt.stderr(), format_args!("replay: {stop}")),
        }
    }
}
