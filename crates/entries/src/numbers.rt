// Numbers stored as their bytes: one function for each width, since a trait over both would be longer than the two lines.
ghost use Rattle.std.specs.Prelude.{◌≡◌, ◌+◌, ◌≤◌, length};
ghost use Rattle.std.proofs.lemmas.List.Edits.{sets};
ghost use Rattle.model.specs.Bytes.{bytes16, bytes32};

// Stores a number as its two bytes.
pub fn put16_at(s: &mut [u8], at: usize, v: u16)
    requires { at + 2 ≤ length s.old }
    ensures { s.new ≡ sets s.old at (bytes16 v) }
{
    s[at..at + 2].copy_from_slice(&v.to_be_bytes());
}

// Stores a number as its four bytes.
pub fn put32_at(s: &mut [u8], at: usize, v: u32)
    requires { at + 4 ≤ length s.old }
    ensures { s.new ≡ sets s.old at (bytes32 v) }
{
    s[at..at + 4].copy_from_slice(&v.to_be_bytes());
}
