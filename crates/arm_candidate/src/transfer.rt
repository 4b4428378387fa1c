// Transfers.
ghost use Rattle.std.specs.Prelude.{◌≡◌, ◌≤◌, ◌<◌, ◌^◌};
ghost use Rattle.arm_candidate.specs.CandidateSaid.{of_said};
ghost use Rattle.arm_candidate.specs.CandidateTransfer.{ldm_cand, indexed_in, base_in, is_added, size_of, ldr_offset, ldr_cand, half_offset, half_cand};

use crate::operand::{is_number, shifted};
use crate::parts::Said;
use arm7tdmi::Form;
use reading::parts::{register, register_list};
use text::read::{behind_word, first_word, has, item_or, read_number};

// ldm and stm. `^` and `!` stand nowhere else in the line.
pub fn ldm_candidate(said: &Said) -> u64
    ensures { result ≡ of_said ldm_cand said.now }
{
    let user = u64::from(has(said.line, b'^'));
    let back = u64::from(has(said.line, b'!'));
    let rn = u64::from(register(said.one));
    let list = u64::from(register_list(16, said.two));
    let top = said.condition() * 0x1000_0000 + 0x0800_0000 + said.bits();
    top + user * 0x0040_0000 + back * 0x0020_0000 + rn * 0x0001_0000 + list
}

// Whether the offset is within the brackets: a comma stands behind Rn.
fn indexed(said: &Said) -> bool
    ensures { result ≡ indexed_in said.now.line.now }
{
    item_or(behind_word(said.two), 0, 0) == b','
}

// Bits 24-12: those of the mnemonic, P, W, Rn and Rd.
fn base_in(said: &Said) -> u64
    ensures { (result ≡ base_in said.now.head.bits said.now.line.now) × (result < 2 ^ 27) }
{
    let before = u64::from(indexed(said));
    let back = u64::from(has(said.line, b'!'));
    let rn = u64::from(register(said.two));
    let rd = u64::from(register(said.one));
    said.bits() + before * 0x0100_0000 + back * 0x0020_0000 + rn * 0x0001_0000 + rd * 0x1000
}

// Whether a number is added.
fn is_added(form: Form, zero: bool, minus: bool, v: u32) -> bool
    ensures { result ≡ is_added form zero minus v }
{
    match form {
        Form::Bench => { if v == 0 { zero } else { v < 0x1000 } }
        Form::Sheet => !minus,
    }
}

// How large it is.
fn size_of(form: Form, up: bool, v: u32) -> u32
    ensures { result ≡ size_of form up v }
{
    match form {
        Form::Bench => { if up { v } else { v.wrapping_neg() } }
        Form::Sheet => v,
    }
}

// U and the offset of ldr and str.
fn ldr_offset(said: &Said) -> u64
    ensures { (result ≡ ldr_offset said.now.form said.now.line.now) × (result < 2 ^ 27) }
{
    let minus = has(said.line, b'-');
    let three = said.three();
    let w = first_word(three);
    if is_number(w) {
        let v = read_number::<10>(w);
        let up = is_added(said.form, false, minus, v);
        return u64::from(up) * 0x0080_0000 + u64::from(size_of(said.form, up, v)) % 0x1000;
    }
    0x0200_0000 + u64::from(!minus) * 0x0080_0000 + shifted(three)
}

// ldr and str.
pub fn ldr_candidate(said: &Said) -> u64
    ensures { result ≡ of_said ldr_cand said.now }
{
    said.condition() * 0x1000_0000 + 0x0400_0000 + base_in(said) + ldr_offset(said)
}

// U and the offset of a halfword transfer.
fn half_offset(zero: bool, said: &Said) -> u64
    ensures { (result ≡ half_offset said.now.form zero said.now.line.now) × (result < 2 ^ 27) }
{
    let minus = has(said.line, b'-');
    let three = said.three();
    let w = first_word(three);
    if is_number(w) {
        let v = read_number::<10>(w);
        let up = is_added(said.form, zero, minus, v);
        let n = u64::from(size_of(said.form, up, v));
        return 0x0040_0000 + u64::from(up) * 0x0080_0000 + n / 16 % 16 * 256 + n % 16;
    }
    u64::from(!minus) * 0x0080_0000 + u64::from(register(three))
}

// Halfword transfers. Where bits 24-12 are those of a move to flags, U set tells it from that.
pub fn half_candidate(said: &Said) -> u64
    ensures { result ≡ of_said half_cand said.now }
{
    let base = base_in(said);
    let flags = base / 0x1000 == 0x128f;
    said.condition() * 0x1000_0000 + 0x90 + base + half_offset(flags, said)
}
