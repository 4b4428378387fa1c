// Printing ARM words: the refusals, and the line into a lent buffer.
#![tactic(auto)]

ghost use Rattle.std.specs.Prelude.{◌≡◌, ℕ};
ghost use Rattle.lines.specs.Answer.{is_invalid, printed};
ghost use Rattle.arm_disass.specs.Line.{line_of};
ghost use Rattle.arm_disass.proofs.Lengths.{line_within};
ghost use Rattle.arm_print.specs.Print.{prints_cond, is_halfword, is_test_opcode, lacks_cond, lacks_type, lacks_flags, answer_of, arm_line};

use arm::{ArmFormat, arm_format};
use arm_disass::{put_line, put_line_first};
use arm7tdmi::Form;
use arm7tdmi::bit::{bit, bit_range};
use lines::{Line, print_line};
use refusal::Refusal;
use text::put::Writer;

// The line of a word of a kind at an address. Thumb has one of its own (`thumb_print`): the kinds are other types, and what writes their lines is other code.
#[derive(Clone, Copy, Debug, PartialEq, Eq)]
struct ArmLine {
    form: Form,
    fmt: ArmFormat,
    pc: u32,
    raw: u32,
}

impl Line for ArmLine {
    ghost shown = { λ w. line_of w.form w.fmt w.pc w.raw };

    fn put(&self, out: &mut Writer<'_>) {
        put_line(out, self.form, self.fmt, self.pc, self.raw);
    }

    fn put_first(&self, buf: &mut [u8]) -> usize {
        put_line_first(buf, self.form, self.fmt, self.pc, self.raw)
    }

    ghost short = { λ w. (line_within w.form w.fmt w.pc w.raw).most };
}

// Whether the line of a kind has the condition.
fn prints_cond(form: Form, fmt: ArmFormat) -> bool
    ensures { result ≡ prints_cond form fmt }
{
    match fmt {
        ArmFormat::BranchExchange => matches!(form, Form::Sheet),
        ArmFormat::Undefined => false,
        _ => true,
    }
}

// Whether a kind is one of the halfword transfers.
fn is_halfword(fmt: ArmFormat) -> bool
    ensures { result ≡ is_halfword fmt }
{
    matches!(
        fmt,
        ArmFormat::HalfwordDataTransferRegOffset | ArmFormat::HalfwordDataTransferImmediateOffset
    )
}

// Whether a word's condition is printed and is 1111. This test and those of the other refusals are on the bits, as they are defined by them.
fn lacks_cond(form: Form, fmt: ArmFormat, raw: u32) -> bool
    ensures { result ≡ lacks_cond form fmt raw }
{
    prints_cond(form, fmt) && bit_range(raw, 28, 32) == 15
}

// Whether a word is a halfword transfer of type 00.
fn lacks_type(fmt: ArmFormat, raw: u32) -> bool
    ensures { result ≡ lacks_type fmt raw }
{
    is_halfword(fmt) && bit_range(raw, 5, 7) == 0
}

// Whether an opcode is that of tst, teq, cmp or cmn.
fn is_test_opcode(opcode: u32) -> bool
    ensures { result ≡ is_test_opcode opcode }
{
    matches!(opcode, 0b1000..=0b1011)
}

// S11: whether a word is a test whose S is clear, on the sheet. By `&`, since a jump on a random word's opcode is guessed wrong.
fn lacks_flags(form: Form, fmt: ArmFormat, raw: u32) -> bool
    ensures { result ≡ lacks_flags form fmt raw }
{
    matches!((fmt, form), (ArmFormat::DataProcessing, Form::Sheet))
        & is_test_opcode(bit_range(raw, 21, 25))
        & !bit(raw, 20)
}

// Refusal 1, 2 or 9, in this order, or the line.
#[tactic(auto, unfolding(lines::specs::Answer::printed, crate::specs::Print::answer_of, crate::specs::Print::refusal_of))]
fn print_format(w: ArmLine, buf: &mut [u8]) -> Result<usize, Refusal>
    ensures { printed (answer_of w.form w.fmt w.pc w.raw) buf.old ≡ (result, buf.new) }
{
    let no_cond = lacks_cond(w.form, w.fmt, w.raw);
    let no_type = lacks_type(w.fmt, w.raw);
    let no_flags = lacks_flags(w.form, w.fmt, w.raw);
    if no_cond {
        return Err(Refusal::NoCondition);
    }
    if no_type {
        return Err(Refusal::NoTransfer);
    }
    if no_flags {
        return Err(Refusal::NoFlags);
    }
    print_line(&w, buf)
}

// Prints the line of a word at an address into a buffer: its length.
#[tactic(auto, unfolding(crate::specs::Print::arm_line))]
#[inline(always)]
pub fn print_arm(form: Form, raw: u32, pc: u32, buf: &mut [u8]) -> Result<usize, Refusal>
    ensures { printed (arm_line form pc raw) buf.old ≡ (result, buf.new) }
{
    let fmt = arm_format(form, raw);
    print_format(ArmLine { form, fmt, pc, raw }, buf)
}

/// Whether a word shows no instruction in a form: its print is refused with 1, 2 or 9, or its line is `<Undefined>`. The address does not matter. By `|`, as
/// `lacks_flags`.
#[tactic(auto, using(crate::proofs::Shown::shown_invalid))]
pub fn is_invalid(form: Form, raw: u32) -> bool
    ensures { (pc : ℕ) → result ≡ is_invalid (arm_line form pc raw) }
{
    let kind = arm_format(form, raw);
    lacks_cond(form, kind, raw)
        | lacks_type(kind, raw)
        | lacks_flags(form, kind, raw)
        | matches!(kind, ArmFormat::Undefined)
}
