// Input of programs that hold no more of it than a buffer of fixed size.
#![tactic(auto)]

ghost use Rattle.std.specs.Prelude.{◌≤◌, length, IfOk};

use std::io;
use std::io::Read;

// Reads input, as far as there is room, and answers how many bytes there are.
pub fn read_full<R: Read>(from: &mut R, to: &mut [u8]) -> io::Result<usize>
    ensures { IfOk result (λ n. n ≤ length to.old) }
{
    let mut n = 0;
    for _ in 0..to.len() {
        let got = from.read(&mut to[n..])?;
        if got == 0 {
            break;
        }
        n += got;
    }
    Ok(n)
}
