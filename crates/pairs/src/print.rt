// The line of a call pair into a lent buffer.
ghost use Rattle.std.specs.Prelude.{◌≡◌};
ghost use Rattle.lines.specs.Answer.{printed};
ghost use Rattle.pairs.specs.Print.{pair_line, pair_text};
ghost use borrow.Author.Tests.{leb-true};
ghost use mathlib.Core.Path.{refl};
ghost use Rattle.text.specs.Text.{text};
ghost use Rattle.text.proofs.Within.{◌&◌, exactly, loosely};
ghost use Rattle.lines.proofs.Address.{sheet_within};
ghost use Rattle.thumb.specs.Pair.{pair_target};

use arm7tdmi::Form;
use lines::{Line, put_address, put_at_start};
use refusal::Refusal;
use text::put::Writer;
use thumb::{is_pair, pair_target};

// The line of two halves at an address.
#[derive(Clone, Copy, Debug, PartialEq, Eq)]
pub struct PairLine {
    pub pc: u32,
    pub first: u16,
    pub second: u16,
}

impl Line for PairLine {
    ghost shown = { λ p. pair_text p.pc p.first p.second };

    fn put(&self, out: &mut Writer<'_>) {
        let target = pair_target(self.pc, u32::from(self.first), u32::from(self.second));
        out.put_text(b"bl\t");
        put_address(out, Form::Sheet, target);
    }

    ghost short = { λ p. unfold pair_text in (loosely (exactly (text "bl\t") & sheet_within (pair_target p.pc p.first p.second)) (leb-true 13 13 refl) (leb-true 13 80 refl)).most };
}

// Prints the line of two halfwords at an address into a buffer: its length, 13.
#[tactic(auto, using(crate::proofs::Printing::print_none, crate::proofs::Printing::print_short))]
pub fn print_pair(first: u16, second: u16, pc: u32, buf: &mut [u8]) -> Result<usize, Refusal>
    ensures { printed (pair_line pc first second) buf.old ≡ (result, buf.new) }
{
    if !is_pair(first, second) {
        return Err(Refusal::NoPair);
    }
    if buf.len() < 13 {
        return Err(Refusal::NoRoom);
    }
    Ok(put_at_start(&PairLine { pc, first, second }, buf))
}
