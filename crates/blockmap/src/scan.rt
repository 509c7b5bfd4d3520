// What the map's entries say, and the checks over all of them, block by block. The map comes decoded.
ghost use Rattle.std.specs.Prelude.{◌≡◌, ◌≤◌, length};
ghost use Rattle.model.specs.Map.{sort_of, blocks_free};
ghost use Rattle.model.specs.Check.{fires5};
ghost use Rattle.blockmap.specs.Decoded.{decoded_entry};
ghost use Rattle.blockmap.specs.Marks.{unowned};

use model::{AllocationBlock, MapValue};

// What an entry of this value says on a volume of n allocation blocks. 4095, a directory inside the allocation area, is bad
// for now.
pub fn sort_value(value: u16, n: u16) -> MapValue
    requires { n ≤ 640 }
    ensures { result ≡ sort_of n value }
{
    match value {
        0 => MapValue::Free,
        1 => MapValue::Last,
        2..=4094 if value <= n + 1 => MapValue::Next(AllocationBlock(value)),
        _ => MapValue::Bad,
    }
}

// Whether an entry is bad. All are looked at, so that the loop has no way out but its end.
pub fn any_bad(entries: &[u16; 642], n: u16) -> bool
    requires { n ≤ 640 }
    ensures { result ≡ fires5 (decoded_entry entries.now) n }
{
    let end = n as usize + 2;
    let mut found = false;
    for value in &entries[2..end] {
        found |= matches!(sort_value(*value, n), MapValue::Bad);
    }
    found
}

// Whether a block with an entry above 0 has no mark. All are looked at, with `&` in place of `&&` and so with no branch.
pub fn any_unowned(entries: &[u16; 642], n: u16, marks: &[u8; 642]) -> bool
    requires { n ≤ 640 }
    ensures { result ≡ unowned (decoded_entry entries.now) n marks.now }
{
    let end = n as usize + 2;
    let mut found = false;
    for (value, mark) in entries[2..end].iter().zip(&marks[2..end]) {
        found |= (0 < *value) & (*mark == 0);
    }
    found
}

// How many entries are 0. In one loop with the marks neither would be done for several entries at once, nor by a filter's `count`.
pub fn free_count(entries: &[u16; 642], n: u16) -> u16
    requires { n ≤ 640 }
    ensures { result ≡ length (blocks_free (decoded_entry entries.now) n) }
{
    let end = n as usize + 2;
    let mut free = 0;
    for value in &entries[2..end] {
        if *value == 0 {
            free += 1;
        }
    }
    free
}
