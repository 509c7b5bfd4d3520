// Big-endian numbers, read from bytes: two functions of a line, where a trait over both widths would be longer.
ghost use Rattle.std.specs.Prelude.{◌≡◌, ◌+◌, ◌<◌, length};
ghost use Rattle.model.specs.Bytes.{be16, be32};

pub fn be16_at(s: &[u8], at: usize) -> u16
    requires { at + 1 < length s.now }
    ensures { result ≡ be16 s.now at }
{
    u16::from_be_bytes([s[at], s[at + 1]])
}

pub fn be32_at(s: &[u8], at: usize) -> u32
    requires { at + 3 < length s.now }
    ensures { result ≡ be32 s.now at }
{
    u32::from_be_bytes([s[at], s[at + 1], s[at + 2], s[at + 3]])
}
