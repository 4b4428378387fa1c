// Reading the line of a call pair back. The halves for the distance that it shows are printed, and compared with it.
ghost use Rattle.std.specs.Prelude.{◌≡◌, ◌≤◌, ◌+◌, ◌%◌};
ghost use Rattle.pairs.specs.Candidate.{distance};
ghost use Rattle.pairs.specs.Read.{pair_answer};

use crate::print::PairLine;
use reading::shown::prints;
use text::read::read_number;

// How far a target is from the address behind a pair.
fn distance(pc: u32, target: u32) -> u32
    ensures { result ≡ distance pc target }
{
    target.wrapping_sub(pc.wrapping_add(4))
}

// A half with these bits at its top, and the lowest eleven bits of a number as its field.
fn half<const TOP: u16>(n: u32) -> u16
    requires { TOP ≤ 0xf800 }
    ensures { result ≡ TOP + n % 2048 }
{
    TOP + (n % 2048) as u16
}

// Reads a line at an address: the halves of the pair that prints it, if there is one.
pub fn read_pair(address: u32, line: &[u8]) -> Option<(u16, u16)>
    ensures { result ≡ pair_answer address line.now }
{
    if line.len() != 13 {
        return None;
    }
    let d = distance(address, read_number::<16>(&line[5..]));
    let first = half::<0xf000>(d / 4096);
    let second = half::<0xf800>(d / 2);
    let pc = address;
    if prints(&PairLine { pc, first, second }, line) {
        return Some((first, second));
    }
    None
}
