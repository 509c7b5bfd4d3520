// The map's entries, read and stored two at a time, in their three bytes. An entry has 12 bits, which are three half-bytes. With
// a letter for each half-byte, high bits first:
//
//                 +-------+-------+-------+
//   three bytes   | A   B | C   D | E   F |   AB CD EF
//                 +-------+---+---+-------+
//   two entries   | A   B   C | D   E   F |   ABC and DEF
//                 +-----------+-----------+
//
// The first entry is an even block's and the second that of the odd block behind it. Block numbers begin at 2, so the first three
// bytes of the map are those of blocks 2 and 3, the next three those of 4 and 5. On the disk HALL the map begins 00 40 01: the
// entry of block 2 is 004, so block 4 comes next, and the entry of block 3 is 001, so it is the last of its fork.
//
// Where N, the number of allocation blocks, is odd, the last pair has an entry for one block alone: D is dead space, and EF stands
// behind the map. They are read with the others and ignored, and a store puts them back as they were. HALL has N = 5, and its
// last pair has the entry of block 6.
ghost use Rattle.std.specs.Prelude.{◌≡◌, ◌+◌, ◌≤◌, ◌<◌, length};
ghost use Rattle.model.specs.Map.{map_entry, set_entry, pair_byte, three_bytes, entries_in, bytes_for, AreEntries};
ghost use Rattle.blockmap.specs.Decoded.{Decoded};
ghost use Rattle.blockmap.specs.Stored.{put_pair};

use model::{AllocationBlock, ThreeBytes, TwoEntries};

// The map starts here.
const MAP_AT: usize = 1088;

// The first of the three bytes of block b's pair. Pairs are counted from 0: blocks 2 and 3, then 4 and 5.
fn pair_byte(b: AllocationBlock) -> usize
    requires { (2 ≤ b.0) × (b.0 ≤ 641) }
    ensures { result ≡ pair_byte b.0 }
{
    MAP_AT + (b.0 as usize / 2 - 1) * 3
}

// The three bytes from byte `at` on.
fn three_bytes(image: &[u8], at: usize) -> ThreeBytes
    requires { at + 2 < length image.now }
    ensures { result ≡ three_bytes image.now at }
{
    let ab = image[at];
    let cd = image[at + 1];
    let ef = image[at + 2];
    ThreeBytes { ab, cd, ef }
}

// The two entries in three bytes: ABC and DEF of AB CD EF.
fn split(bytes: ThreeBytes) -> TwoEntries
    ensures { (result ≡ entries_in bytes) × AreEntries result }
{
    let ab = bytes.ab as u16;
    let cd = bytes.cd as u16;
    let ef = bytes.ef as u16;
    let first = (ab << 4) | (cd >> 4); // AB0 | C
    let second = ((cd & 0x0f) << 8) | ef; // D00 | EF
    TwoEntries { first, second }
}

// The three bytes for two entries: AB CD EF for ABC and DEF.
fn join(entries: TwoEntries) -> ThreeBytes
    requires { AreEntries entries }
    ensures { result ≡ bytes_for entries }
{
    let first = entries.first;
    let second = entries.second;
    let ab = (first >> 4) as u8;
    let c = ((first & 0x0f) << 4) as u8; // C0
    let d = (second >> 8) as u8; // 0D
    let ef = (second & 0xff) as u8;
    ThreeBytes { ab, cd: c | d, ef }
}

// Puts the three bytes for two entries in the place of those from byte `at` on.
fn put_pair(image: &mut [u8], at: usize, first: u16, second: u16)
    requires { (at + 2 < length image.old) × (first < 4096) × (second < 4096) }
    ensures { image.new ≡ put_pair image.old at (record { first = first; second = second }) }
{
    let bytes = join(TwoEntries { first, second });
    image[at] = bytes.ab;
    image[at + 1] = bytes.cd;
    image[at + 2] = bytes.ef;
}

// The map entry of block b: the first of the two in its three bytes where b is even, the second where it is odd.
pub fn load(image: &[u8], b: AllocationBlock) -> u16
    requires { (2 ≤ b.0) × (b.0 ≤ 641) × (2048 ≤ length image.now) }
    ensures { (result ≡ map_entry image.now b.0) × (result < 4096) }
{
    let bytes = three_bytes(image, pair_byte(b));
    let pair = split(bytes);
    match b.0 % 2 {
        0 => pair.first,
        _ => pair.second,
    }
}

// Gives block b the map entry value. The other entry in its three bytes stays.
pub fn store(image: &mut [u8], b: AllocationBlock, value: u16)
    requires { (2 ≤ b.0) × (b.0 ≤ 641) × (2048 ≤ length image.old) × (value < 4096) }
    ensures { image.new ≡ set_entry image.old b.0 value }
{
    let at = pair_byte(b);
    let pair = split(three_bytes(image, at));
    match b.0 % 2 {
        0 => put_pair(image, at, value, pair.second),
        _ => put_pair(image, at, pair.first, value),
    }
}

// The entries of blocks 2 to n + 1, each at its block's number in the lent array, decoded pair by pair. Where n is odd, the
// last pair's second entry, which is no block's, stands behind them.
pub fn decode(image: &[u8], n: u16, entries: &mut [u16; 642])
    requires { (n ≤ 640) × (2048 ≤ length image.now) }
    ensures { Decoded image.now n entries.new }
{
    // A proof learns a lent array's length where it is made a slice.
    let entries: &mut [u16] = entries;
    for i in 0..(n as usize).div_ceil(2) {
        let pair = split(three_bytes(image, MAP_AT + 3 * i));
        let b = 2 * i + 2;
        entries[b] = pair.first;
        entries[b + 1] = pair.second;
    }
}
