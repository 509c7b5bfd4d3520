// Lists a volume: an image on standard input, a line for the volume and one for each file on standard output.
#![tactic(auto)]

use model::{DirectoryEntry, VolumeFacts};
use std::fmt;
use std::io::{Read, Write};
use text::streams;

// The most bytes of an image: 127 blocks.
const MOST: usize = 65_024;

// The bytes of a name that are shown and written at once: all of them. To write each by itself takes ten times as long.
const AT_ONCE: usize = 256;

// A name as it is printed: each byte that isn't a printable character of ASCII as a question mark.
#[derive(Clone, Copy)]
struct Shown<'a>(&'a [u8]);

impl fmt::Display for Shown<'_> {
    fn fmt<W: fmt::Write>(&self, f: &mut fmt::Formatter<W>) -> fmt::Result {
        for part in self.0.chunks(AT_ONCE) {
            let mut shown = [b'?'; AT_ONCE];
            for (to, b) in shown.iter_mut().zip(part) {
                if matches!(b, b' '..=b'~') {
                    *to = *b;
                }
            }
            let whole = str::from_utf8(text::first(&shown, part.len())).map_err(|_| fmt::Error)?;
            f.write_str(whole)?;
        }
        Ok(())
    }
}

// The line of a volume.
#[derive(Clone, Copy)]
struct Volume<'a>(&'a VolumeFacts);

impl fmt::Display for Volume<'_> {
    fn fmt<W: fmt::Write>(&self, f: &mut fmt::Formatter<W>) -> fmt::Result {
        let facts = self.0;
        let name = Shown(text::first(&facts.name, facts.name_length as usize));
        write!(
            f,
            "volume {name} files {} free {} of {}",
            facts.files, facts.free_blocks, facts.allocation_blocks,
        )
    }
}

// The line of a file.
#[derive(Clone, Copy)]
struct File<'a>(&'a DirectoryEntry);

impl fmt::Display for File<'_> {
    fn fmt<W: fmt::Write>(&self, f: &mut fmt::Formatter<W>) -> fmt::Result {
        let entry = self.0;
        let name = Shown(text::first(&entry.name, entry.name_length as usize));
        write!(
            f,
            "{} {} {} {} {} {name}",
            entry.number, entry.data.logical, entry.resource.logical, entry.created, entry.changed,
        )
    }
}

fn list<W: Write>(out: &mut W, image: &[u8]) {
    match volume::check(image) {
        Ok(facts) => {
            text::print(out, Volume(&facts));
            for place in 0..facts.files as u64 {
                if let Ok(entry) = call_read::serve_entry(image, facts, place) {
                    text::print(out, File(&entry));
                }
            }
        }
        Err(refusal) => text::print(out, format_args!("refused {}", refusal.number())),
    }
}

// read_full takes a read that fails for the input's end, so one more read tells them apart.
fn main(rt: HostRuntime) {
    let mut input = rt.stdin();
    let mut out = rt.stdout();
    let mut image = text::filled::<MOST>(0);
    let n = streams::read_full(&mut input, &mut image);
    match input.read(&mut [0]) {
        Ok(0) => list(&mut out, &image[..n]),
        Ok(_) if n == MOST => text::print(&mut out, "too long"),
        _ => text::print(&mut rt.stderr(), "list: standard input can't be read"),
    }
}
