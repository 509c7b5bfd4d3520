// The records of the calls that change the image: each reads its fields, makes the call and prints its line.
use crate::calls::Record;
use crate::disk::Disk;
use model::done_number;
use replay_records::input;
use replay_records::input::{MOST_NAME, Stop};
use std::io::{Read, Write};

// The most bytes of a write.
const MOST_WRITTEN: usize = 65_535;

impl<R: Read, W: Write> Record<'_, R, W> {
    pub fn create(&mut self, disk: &impl Disk) -> Result<(), Stop> {
        let mut space = text::filled::<MOST_NAME>(0);
        let name = input::name(self.reader, &mut space)?;
        let finder = input::array(self.reader)?;
        let created = input::number32(self.reader)?;
        let changed = input::number32(self.reader)?;
        let number = done_number(disk.create(self.image, name, &finder, created, changed));
        self.print(format_args!("N {number}"));
        Ok(())
    }

    pub fn write(&mut self, disk: &impl Disk) -> Result<(), Stop> {
        let mut space = text::filled::<MOST_NAME>(0);
        let (name, fork, offset) = input::place_in_fork(self.reader, &mut space)?;
        let mut room = text::filled::<MOST_WRITTEN>(0);
        let bytes = input::bytes(self.reader, &mut room)?;
        let changed = input::number32(self.reader)?;
        let number = done_number(disk.write(self.image, name, fork, offset, bytes, changed));
        self.print(format_args!("W {number}"));
        Ok(())
    }

    pub fn cut(&mut self, disk: &impl Disk) -> Result<(), Stop> {
        let mut space = text::filled::<MOST_NAME>(0);
        let (name, fork, size) = input::place_in_fork(self.reader, &mut space)?;
        let changed = input::number32(self.reader)?;
        let number = done_number(disk.cut(self.image, name, fork, size, changed));
        self.print(format_args!("U {number}"));
        Ok(())
    }

    pub fn delete(&mut self, disk: &impl Disk) -> Result<(), Stop> {
        let mut space = text::filled::<MOST_NAME>(0);
        let name = input::name(self.reader, &mut space)?;
        let number = done_number(disk.delete(self.image, name));
        self.print(format_args!("D {number}"));
        Ok(())
    }

    // A wrapped file, too, is taken for a bare image.
    pub fn rename(&mut self) -> Result<(), Stop> {
        let mut old_space = text::filled::<MOST_NAME>(0);
        let old = input::name(self.reader, &mut old_space)?;
        let mut new_space = text::filled::<MOST_NAME>(0);
        let new = input::name(self.reader, &mut new_space)?;
        let changed = input::number32(self.reader)?;
        let number = done_number(volume::rename(self.image, old, new, changed));
        self.print(format_args!("M {number}"));
        Ok(())
    }
}
