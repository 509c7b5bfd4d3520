// Bytes read where a failure ends the call: what was read counts.
ghost use Rattle.io.specs.Counts.{IsPrefixLen};

use std::io::Read;

// Reads until the space is full, the input ends or a read fails, and gives how many bytes it put at the start of the space.
// The library's `read_exact` does not tell how many came before a failure.
pub fn read_full<R: Read>(input: &mut R, space: &mut [u8]) -> usize
    ensures { IsPrefixLen result space.new }
{
    let mut done = 0;
    while done < space.len() {
        match input.read(&mut space[done..]) {
            Ok(0) | Err(_) => break,
            Ok(n) => done += n,
        }
    }
    done
}
