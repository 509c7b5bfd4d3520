// The calls that change a wrapped file: each checks the container, changes the data inside and renews their checksum.
ghost use Rattle.model.specs.Calls.{Call};
ghost use Rattle.model.specs.Wrapped.{DoesWrapped};
ghost use Rattle.files.specs.Told.{told_number};

use container::{DATA_AT, DATA_END, judge, renew};
use model::{Fork, Refusal};

// Puts in an empty file.
pub fn create(
    file: &mut [u8],
    name: &[u8],
    finder: &[u8; 16],
    created: u32,
    changed: u32,
) -> Result<(), Refusal>
    ensures { DoesWrapped (Call.create name.now finder.now created changed)
        file.old (told_number result) file.new }
{
    call_create::whole(finder);
    judge(file)?;
    volume::create(&mut file[DATA_AT..DATA_END], name, finder, created, changed)?;
    renew(file);
    Ok(())
}

// Stores bytes in a fork from an offset on; the fork grows where they reach behind its end.
pub fn write(
    file: &mut [u8],
    name: &[u8],
    fork: Fork,
    offset: u64,
    bytes: &[u8],
    changed: u32,
) -> Result<(), Refusal>
    ensures { DoesWrapped (Call.write name.now fork offset bytes.now changed)
        file.old (told_number result) file.new }
{
    judge(file)?;
    volume::write(
        &mut file[DATA_AT..DATA_END],
        name,
        fork,
        offset,
        bytes,
        changed,
    )?;
    renew(file);
    Ok(())
}

// Cuts a fork to its first bytes, as many as the size says.
pub fn cut(file: &mut [u8], name: &[u8], fork: Fork, size: u64, changed: u32) -> Result<(), Refusal>
    ensures { DoesWrapped (Call.cut name.now fork size changed) file.old (told_number result) file.new }
{
    judge(file)?;
    volume::cut(&mut file[DATA_AT..DATA_END], name, fork, size, changed)?;
    renew(file);
    Ok(())
}

// Takes a file out.
pub fn delete(file: &mut [u8], name: &[u8]) -> Result<(), Refusal>
    ensures { DoesWrapped (Call.delete name.now) file.old (told_number result) file.new }
{
    judge(file)?;
    volume::delete(&mut file[DATA_AT..DATA_END], name)?;
    renew(file);
    Ok(())
}
