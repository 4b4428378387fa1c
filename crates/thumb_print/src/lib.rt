// Printing Thumb words: the line into a lent buffer.
#![tactic(auto)]

ghost use Rattle.std.specs.Prelude.{◌≡◌, ℕ};
ghost use Rattle.lines.specs.Answer.{is_invalid, printed};
ghost use Rattle.thumb_disass.specs.Line.{line_of};
ghost use Rattle.thumb_disass.proofs.Lengths.{line_within};
ghost use Rattle.thumb_print.specs.Print.{thumb_line};

use arm7tdmi::Form;
use lines::{Line, print_line};
use refusal::Refusal;
use text::put::Writer;
use thumb::ThumbFormat;
use thumb_disass::{put_line, put_line_first};
use thumb_top::word_kind;

// The line of a word of a kind at an address, as `arm_print` has one of ARM's.
#[derive(Clone, Copy, Debug, PartialEq, Eq)]
struct ThumbLine {
    form: Form,
    fmt: ThumbFormat,
    pc: u32,
    raw: u32,
}

impl Line for ThumbLine {
    ghost shown = { λ w. line_of w.form w.fmt w.pc w.raw };

    fn put(&self, out: &mut Writer<'_>) {
        put_line(out, self.form, self.fmt, self.pc, self.raw);
    }

    fn put_first(&self, buf: &mut [u8]) -> usize {
        put_line_first(buf, self.form, self.fmt, self.pc, self.raw)
    }

    ghost short = { λ w. (line_within w.form w.fmt w.pc w.raw).most };
}

// Prints the line of a word at an address into a buffer: its length.
#[tactic(auto, unfolding(crate::specs::Print::thumb_line))]
pub fn print_thumb(form: Form, raw: u16, pc: u32, buf: &mut [u8]) -> Result<usize, Refusal>
    ensures { printed (thumb_line form pc raw) buf.old ≡ (result, buf.new) }
{
    let fmt = word_kind(form, raw);
    let raw = u32::from(raw);
    print_line(&ThumbLine { form, fmt, pc, raw }, buf)
}

/// Whether a word shows no instruction in a form: its line is `<Undefined>`. The address does not matter.
#[tactic(auto, using(crate::proofs::Shown::shown_invalid))]
pub fn is_invalid(form: Form, raw: u16) -> bool
    ensures { (pc : ℕ) → result ≡ is_invalid (thumb_line form pc raw) }
{
    matches!(word_kind(form, raw), ThumbFormat::Undefined)
}
