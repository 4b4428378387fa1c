// What is taken from a line once, for its candidate.
ghost use Rattle.std.specs.Prelude.{◌≡◌, ◌≤◌, ◌<◌, ◌^◌};
ghost use Rattle.arm7tdmi.specs.Cond.{arm_cond_number};
ghost use Rattle.arm_candidate.specs.CandidateParts.{Taken};
ghost use Rattle.arm_mnemonic.specs.Heads as H;
ghost use Rattle.arm_mnemonic.specs.Stems.{family_number};
ghost use Rattle.text.specs.Word.{from_word, word};

use arm_mnemonic::{Head, head_of};
use arm7tdmi::Form;
use arm7tdmi::cond::{ArmCond, read_cond};
use text::read::{first_word, next_word};

// What a first word says: it is a mnemonic, or one with a condition behind it.
fn says(w: &[u8]) -> (Head, ArmCond)
    ensures { (family_number result.0.family ≡ (H.head_of w.now).family) × (result.0.bits ≡ (H.head_of w.now).bits) × (arm_cond_number result.1 ≡ (H.head_of w.now).condition) × (result.0.bits < 2 ^ 25) }
{
    let head = head_of(w);
    if head.is_mnemonic() {
        return (head, ArmCond::AL);
    }
    let n = w.len().saturating_sub(2);
    (head_of(&w[..n]), read_cond(&w[n..]))
}

// What a line says, in a form, at an address: its mnemonic's head, its condition, and the line from its words 1 and 2 on. What Thumb takes from a line (`Sought`)
// has registers and no head, and serves several candidates.
#[derive(Clone, Copy, Debug, PartialEq, Eq)]
pub struct Said<'a> {
    pub form: Form,
    pub pc: u32,
    pub head: Head,
    pub cond: ArmCond,
    pub line: &'a [u8],
    pub one: &'a [u8],
    pub two: &'a [u8],
    ghost small: { head.bits < 2 ^ 25 },
    ghost taken: { Taken line.now one.now two.now },
}

impl<'a> Said<'a> {
    pub fn new(form: Form, pc: u32, line: &'a [u8]) -> Self
        ensures { (result.form ≡ form) × (result.pc ≡ pc) × (result.line.now ≡ line.now) × (family_number result.head.family ≡ (H.head_of (word line.now)).family) × (result.head.bits ≡ (H.head_of (word line.now)).bits) × (arm_cond_number result.cond ≡ (H.head_of (word line.now)).condition) }
    {
        let (head, cond) = says(first_word(line));
        let one = next_word(line);
        let two = next_word(one);
        Said {
            form,
            pc,
            head,
            cond,
            line,
            one,
            two,
        }
    }

    // The line from word 3 on. No field: many lines are read without it, and to look for it in each made reads slower.
    pub fn three(&self) -> &'a [u8]
        ensures { result.now ≡ from_word 3 self.now.line.now }
    {
        next_word(self.two)
    }

    // The condition's number.
    pub fn condition(&self) -> u64
        ensures { (result ≡ arm_cond_number self.now.cond) × (result ≤ 15) }
    {
        u64::from(u32::from(self.cond))
    }

    // The mnemonic's bits.
    pub fn bits(&self) -> u64
        ensures { (result ≡ self.now.head.bits) × (result < 2 ^ 25) }
    {
        u64::from(self.head.bits)
    }
}
