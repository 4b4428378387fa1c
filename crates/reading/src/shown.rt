// What a print writes, compared with a line.
ghost use Rattle.std.specs.Prelude.{◌≡◌};
ghost use Rattle.lines.specs.Answer.{Answer, line, printed};
ghost use Rattle.reading.specs.Read.{is_line};
ghost use Rattle.reading.specs.Shown.{Short};

use lines::{LINE, Line, print_line};
use refusal::Refusal;
use text::put::part;

// What may print a line: a word, or two that are one call, at an address. Its line, if it has one, has at most LINE bytes.
pub trait Candidate {
    ghost answer: { Self → Answer };

    fn print(&self, buf: &mut [u8]) -> Result<usize, Refusal>
        ensures { printed (answer self.now) buf.old ≡ (result, buf.new) };

    ghost short: { (x : Self) → Short (answer x) };
}

// A line is never refused.
impl<L: Line> Candidate for L {
    ghost answer = { λ l. line (L.shown l) };

    fn print(&self, buf: &mut [u8]) -> Result<usize, Refusal> {
        print_line(self, buf)
    }

    ghost short = { L.short };
}

// Whether a candidate prints a line.
pub fn prints<C: Candidate>(candidate: &C, line: &[u8]) -> bool
    ensures { result ≡ is_line (C.answer candidate.now) line.now }
{
    let mut scratch = [0u8; LINE];
    match candidate.print(&mut scratch) {
        Ok(n) => part(&scratch, 0, n) == line,
        Err(_) => false,
    }
}
