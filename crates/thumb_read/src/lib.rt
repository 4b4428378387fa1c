// Reading a Thumb line back: the lowest word that prints it. For each row of its mnemonic whose kind suits the line, a candidate is taken from the line's words and marks, printed, and compared with the line.
#![tactic(auto)]

ghost use Rattle.std.specs.Prelude.{◌≡◌, cond, ◌^◌, min};
ghost use Rattle.reading.specs.Read.{is_line};
ghost use Rattle.reading.proofs.Scratch.{short_of};
ghost use Rattle.thumb_print.specs.Print.{thumb_line};
ghost use Rattle.thumb_print.proofs.Lengths.{thumb_whole};
ghost use Rattle.thumb_lowest.specs.Read.{read_thumb};
ghost use Rattle.thumb_read.specs.Answer.{low, read_answer};

use arm7tdmi::Form;
use lines::LINE;
use reading::shown::{Candidate, prints};
use refusal::Refusal;
use text::read::{first_word, pack};
use thumb_candidate::operands::{candidate_of, suits};
use thumb_candidate::parts::Sought;
use thumb_mnemonic::rows_of;
use thumb_print::print_thumb;

// A word at an address that may print a line, as `arm_read` has one of ARM's.
#[derive(Clone, Copy, Debug, PartialEq, Eq)]
struct ThumbWord {
    form: Form,
    pc: u32,
    word: u16,
}

impl Candidate for ThumbWord {
    ghost answer = { λ w. thumb_line w.form w.pc w.word };

    fn print(&self, buf: &mut [u8]) -> Result<usize, Refusal> {
        print_thumb(self.form, self.word, self.pc, buf)
    }

    ghost short = { λ w. short_of (thumb_line w.form w.pc w.word) (thumb_whole w.form w.pc w.word) };
}

// The lower of the best so far and a word, if that prints the line.
fn lower(best: Option<u16>, word: u16, sought: &Sought) -> Option<u16>
    ensures { low result ≡ min (low best) (cond (is_line (thumb_line sought.now.form sought.now.pc word) sought.now.line.now) word (2 ^ 16)) }
{
    let Sought { form, pc, .. } = *sought;
    if best.is_none_or(|b| word < b) && prints(&ThumbWord { form, pc, word }, sought.line) {
        return Some(word);
    }
    best
}

// The lowest word that prints a line, if there is one.
fn lowest_of(form: Form, pc: u32, line: &[u8]) -> Option<u16>
    ensures { low result ≡ read_thumb form pc line.now }
{
    let sought = Sought::new(form, pc, line);
    rows_of(pack(first_word(line)))
        .iter()
        .filter(|row| suits(row.1, &sought))
        .map(|row| candidate_of(*row, &sought))
        .fold(None, |best, word| lower(best, word, &sought))
}

// Reads a line at an address: the lowest word that prints it, or none. No line that prints has more than 80 bytes.
#[tactic(auto, using(crate::proofs::Printing::long_none, crate::proofs::Lowest::low_answers), unfolding(crate::specs::Answer::read_answer))]
pub fn read_thumb(form: Form, address: u32, line: &[u8]) -> Option<u16>
    ensures { result ≡ read_answer form address line.now }
{
    if LINE < line.len() {
        return None;
    }
    lowest_of(form, address, line)
}
