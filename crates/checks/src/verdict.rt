// Checks 2 to 10, in their order. The map is decoded once, and each fork's blocks are marked as they are walked. The directory is
// read four times: to count, to compare numbers and names, and to walk the forks.
ghost use Rattle.std.specs.Prelude.{◌≡◌, ◌≤◌};
ghost use Rattle.model.specs.Check.{from2, from8};
ghost use Rattle.model.specs.Directory.{forks_in};
ghost use Rattle.model.specs.Map.{map_entry};
ghost use Rattle.model.specs.Refusals.{done_number};
ghost use Rattle.blockmap.specs.Decoded.{decoded_entry, Decoded};
ghost use Rattle.directory.specs.Cursor.{rest_of, CursorFits, Passes};
ghost use Rattle.checks.specs.Numbers.{directory_number, Claims, Judged, Mapped};

use crate::limits::judge_facts;
use directory::Cursor;
use model::{Fork, Refusal, VolumeFacts};

// Checks 6 and 7.
fn judge_directory(image: &[u8], c: Cursor, files: u16, next: u32) -> Result<(), Refusal>
    requires { CursorFits image.now c }
    ensures { done_number result ≡ directory_number files next (rest_of image.now c) }
{
    let t = crate::tally::count_entries(image, c, next)?;
    if t.count != files as usize {
        return Err(Refusal::BadFiles);
    }
    if !t.numbered {
        return Err(Refusal::BadFiles);
    }
    if !crate::differ::all_differ(image, c, t.count) {
        return Err(Refusal::BadFiles);
    }
    Ok(())
}

// Whether each fork is good and shares no block with one before it. Their blocks are marked.
fn claim_all(
    image: &[u8],
    from: Cursor,
    entries: &[u16; 642],
    n: u16,
    a: u32,
    marks: &mut [u8; 642],
) -> bool
    requires n_bound { (n ≤ 640) × (512 ≤ a) }
    requires passes { Passes image.now from }
    ensures { Claims (decoded_entry entries.now) n a marks.old (forks_in (rest_of image.now from)) result marks.new }
{
    for e in from.entries(image) {
        let data = directory::read_fork(image, e, Fork::Data);
        if !blockmap::claim_fork(entries, n, a, data, marks) {
            return false;
        }
        let resource = directory::read_fork(image, e, Fork::Resource);
        if !blockmap::claim_fork(entries, n, a, resource, marks) {
            return false;
        }
    }
    true
}

// Checks 8 to 10, from the decoded map.
fn judge_map(image: &[u8], f: VolumeFacts, c: Cursor, entries: &[u16; 642]) -> Result<(), Refusal>
    requires { Mapped f image.now c entries.now }
    ensures { done_number result ≡ from8 f (map_entry image.now) (forks_in (rest_of image.now c)) }
{
    let n = f.allocation_blocks;
    let mut marks = [0u8; 642];
    if !claim_all(image, c, entries, n, f.block_size, &mut marks) {
        return Err(Refusal::BadFork);
    }
    if blockmap::any_unowned(entries, n, &marks) {
        return Err(Refusal::LostBlock);
    }
    if blockmap::free_count(entries, n) != f.free_blocks {
        return Err(Refusal::BadFreeCount);
    }
    Ok(())
}

// Checks 2 to 10.
pub fn judge(image: &[u8], f: VolumeFacts) -> Result<(), Refusal>
    requires { Judged f image.now }
    ensures { done_number result ≡ from2 f image.now }
{
    judge_facts(f, image.len() / 512)?;
    let mut entries = [0u16; 642];
    blockmap::decode(image, f.allocation_blocks, &mut entries);
    if blockmap::any_bad(&entries, f.allocation_blocks) {
        return Err(Refusal::BadMapEntry);
    }
    let c = Cursor::new(f.directory_start, f.directory_length);
    judge_directory(image, c, f.files, f.next_number)?;
    judge_map(image, f, c, &entries)
}
