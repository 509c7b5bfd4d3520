// Bytes copied from one slice to another, or to an array.
ghost use Rattle.std.specs.Prelude.{◌≡◌, ◌+◌, ◌≤◌, length, drop};
ghost use Rattle.std.proofs.Math.Seq.{paste};
ghost use Rattle.model.specs.Bytes.{part};

// Copies n bytes from a place of the image to a place of the buffer. A function of its own, since the pages in docs/ name it.
pub fn copy_part(image: &[u8], from: usize, buffer: &mut [u8], to: usize, n: usize)
    requires { (from + n ≤ length image.now) × (to + n ≤ length buffer.old) }
    ensures { buffer.new ≡ paste buffer.old to (drop from image.now) n }
{
    buffer[to..to + n].copy_from_slice(&image[from..from + n]);
}

// N bytes from a place on.
pub fn array_at<const N: usize>(s: &[u8], at: usize) -> [u8; N]
    requires { at + N ≤ length s.now }
    ensures { result ≡ part at N s.now }
{
    let mut bytes = [0; N];
    bytes.copy_from_slice(&s[at..at + N]);
    bytes
}
