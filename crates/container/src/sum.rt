// The checksum of a Disk Copy 4.2 file.
ghost use Rattle.std.specs.Prelude.{◌≡◌};
ghost use Rattle.model.specs.Container.{added, checksum};

// One more word added, and the sum turned right by one bit.
fn add(sum: u32, word: u16) -> u32
    ensures { result ≡ added sum word }
{
    sum.wrapping_add(u32::from(word)).rotate_right(1)
}

// The checksum of all the bytes, two by two.
pub fn checksum(bytes: &[u8]) -> u32
    ensures { result ≡ checksum bytes.now }
{
    let (words, _) = bytes.as_chunks();
    words
        .iter()
        .fold(0, |sum, word| add(sum, u16::from_be_bytes(*word)))
}
