// Reading an ARM line back: the lowest word that prints it. A candidate is taken from the line's words and marks, printed, and compared with the line.
#![tactic(auto)]

ghost use Rattle.std.specs.Prelude.{◌≡◌};
ghost use Rattle.arm_print.specs.Print.{arm_line};
ghost use Rattle.arm_print.proofs.Whole.{arm_whole};
ghost use Rattle.reading.proofs.Scratch.{short_of};
ghost use Rattle.arm_read.specs.Answer.{read_answer};

use arm_candidate::candidate_of;
use arm_print::print_arm;
use arm7tdmi::Form;
use lines::LINE;
use reading::shown::{Candidate, prints};
use refusal::Refusal;

// A word at an address that may print a line. Thumb has one of its own (`thumb_read`), since each set's print, and the proof that its lines are short, is its own.
#[derive(Clone, Copy, Debug, PartialEq, Eq)]
struct ArmWord {
    form: Form,
    pc: u32,
    word: u32,
}

impl Candidate for ArmWord {
    ghost answer = { λ w. arm_line w.form w.pc w.word };

    fn print(&self, buf: &mut [u8]) -> Result<usize, Refusal> {
        print_arm(self.form, self.word, self.pc, buf)
    }

    ghost short = { λ w. short_of (arm_line w.form w.pc w.word) (arm_whole w.form w.pc w.word) };
}

// Reads a line at an address: the lowest word that prints it, or none.
pub fn read_arm(form: Form, address: u32, line: &[u8]) -> Option<u32>
    ensures { result ≡ read_answer form address line.now }
{
    if line.len() == 0 {
        return None;
    }
    if LINE < line.len() {
        return None;
    }
    let word = candidate_of(form, address, line);
    let pc = address;
    if prints(&ArmWord { form, pc, word }, line) {
        return Some(word);
    }
    None
}
