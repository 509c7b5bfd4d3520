// The record of a call, and those of the calls that change nothing: each reads its fields, makes the call and prints its line.
use crate::MOST;
use crate::disk::Disk;
use files::{FoundFile, QuickFound, QuickRefusal};
use model::{Refusal, done_number};
use replay_records::input::{MOST_NAME, Stop};
use replay_records::line::{Entry, Facts};
use replay_records::{input, line};
use std::fmt::Display;
use std::io::{Read, Write};

// The most bytes of a read's buffer.
const MOST_READ: usize = 65_535;

// What a buffer is filled with before a call.
const UNTOUCHED: u8 = 0xee;

// A record of a call: where its fields come from, where its line goes, and the image.
#[derive(Drop)]
pub struct Record<'a, R, W> {
    pub reader: &'a mut R,
    pub out: &'a mut W,
    pub image: &'a mut [u8],
}

impl<R: Read, W: Write> Record<'_, R, W> {
    // Carries out the call of a tag and prints its line. The tags are the bytes that docs/REPLAY.md lists.
    pub fn call(&mut self, tag: u8, disk: &impl Disk) -> Result<(), Stop> {
        match tag {
            b'C' => self.check(disk),
            b'E' => self.entry(disk),
            b'F' => self.find(disk),
            b'B' => self.block(disk),
            b'R' => self.read(disk),
            b'N' => self.create(disk),
            b'W' => self.write(disk),
            b'U' => self.cut(disk),
            b'D' => self.delete(disk),
            b'K' => self.wrap(),
            b'M' => self.rename(),
            b'Q' => self.quick_find(),
            _ => Err(Stop::BadRecord),
        }
    }

    // Prints the call's line: the words, and the SUM of the image.
    pub fn print<T: Display + Drop>(&mut self, words: T) {
        let sum = line::sum(self.image);
        text::print(self.out, format_args!("{words} {sum}"));
    }

    fn check(&mut self, disk: &impl Disk) -> Result<(), Stop> {
        match disk.check(self.image) {
            Ok(facts) => self.print(format_args!("C 0 {}", Facts(&facts))),
            Err(refusal) => self.print(format_args!("C {}", refusal.number())),
        }
        Ok(())
    }

    fn entry(&mut self, disk: &impl Disk) -> Result<(), Stop> {
        let place = input::number64(self.reader)?;
        match disk.entry(self.image, place) {
            Ok(entry) => self.print(format_args!("E 0 {}", Entry(&entry))),
            Err(refusal) => self.print(format_args!("E {}", refusal.number())),
        }
        Ok(())
    }

    fn find(&mut self, disk: &impl Disk) -> Result<(), Stop> {
        let mut space = text::filled::<MOST_NAME>(0);
        let name = input::name(self.reader, &mut space)?;
        match disk.find(self.image, name) {
            Ok(FoundFile { place, entry }) => {
                self.print(format_args!("F 0 {place} {}", Entry(&entry)));
            }
            Err(refusal) => self.print(format_args!("F {}", refusal.number())),
        }
        Ok(())
    }

    // A wrapped file, too, is taken for a bare image. The blocks looked at are printed beside 13 too.
    fn quick_find(&mut self) -> Result<(), Stop> {
        let mut space = text::filled::<MOST_NAME>(0);
        let name = input::name(self.reader, &mut space)?;
        match volume::quick_find(self.image, name) {
            Ok(
                QuickFound {
                    place,
                    entry,
                    looked,
                },
            ) => self.print(format_args!("Q 0 {place} {} {looked}", Entry(&entry))),
            Err(QuickRefusal { refusal, looked }) => match refusal {
                Refusal::NotFound => self.print(format_args!("Q 13 {looked}")),
                other => self.print(format_args!("Q {}", other.number())),
            },
        }
        Ok(())
    }

    fn block(&mut self, disk: &impl Disk) -> Result<(), Stop> {
        let mut space = text::filled::<MOST_NAME>(0);
        let (name, fork, place) = input::place_in_fork(self.reader, &mut space)?;
        match disk.block(self.image, name, fork, place) {
            Ok(block) => self.print(format_args!("B 0 {}", block.0)),
            Err(refusal) => self.print(format_args!("B {}", refusal.number())),
        }
        Ok(())
    }

    fn read(&mut self, disk: &impl Disk) -> Result<(), Stop> {
        let mut space = text::filled::<MOST_NAME>(0);
        let (name, fork, offset) = input::place_in_fork(self.reader, &mut space)?;
        let mut room = text::filled::<MOST_READ>(UNTOUCHED);
        let buffer = input::room(self.reader, &mut room)?;
        let count = disk.read(self.image, name, fork, offset, buffer);
        let sum = line::sum(buffer);
        match count {
            Ok(count) => self.print(format_args!("R 0 {count} {sum}")),
            Err(refusal) => self.print(format_args!("R {} 0 {sum}", refusal.number())),
        }
        Ok(())
    }

    // A wrapped file, too, is taken for a bare image.
    fn wrap(&mut self) -> Result<(), Stop> {
        let mut space = text::filled::<MOST_NAME>(0);
        let name = input::name(self.reader, &mut space)?;
        let format = input::byte(self.reader)?;
        let mut room = text::filled::<MOST>(UNTOUCHED);
        let buffer = input::room(self.reader, &mut room)?;
        let number = done_number(volume::wrap(self.image, name, format, buffer));
        let sum = line::sum(buffer);
        self.print(format_args!("K {number} {sum}"));
        Ok(())
    }
}
