// All kinds but data processing and transfers.
ghost use Rattle.std.specs.Prelude.{◌≡◌, cond, ◌≤◌, ◌<◌, ◌^◌, ◌+◌};
ghost use Rattle.arm7tdmi.specs.Cond.{arm_cond_number};
ghost use Rattle.arm_candidate.specs.CandidateOperand.{operand_of};
ghost use Rattle.arm_candidate.specs.CandidateSaid.{of_said};
ghost use Rattle.arm_candidate.specs.CandidateSimple.{field_of, branch_cand, cond_shown, bx_cand, mrs_cand, msr_cand, mul_cand, mull_cand, swi_cand, swp_cand};
ghost use Rattle.common.specs.Bits.{bit};
ghost use Rattle.reading.specs.Parts.{hex_in, reg_in};
ghost use Rattle.text.specs.Word.{from_word, has};

use crate::operand::operand;
use crate::parts::Said;
use arm7tdmi::Form;
use arm7tdmi::bit::bit;
use reading::parts::{hexadecimal, register};
use text::read::{behind_word, has, item_or, next_word};

// The field of a branch to its target.
fn field_of(said: &Said) -> u64
    ensures { (result ≡ field_of said.now.pc (hex_in 1 said.now.line.now)) × (result < 2 ^ 24) }
{
    let target = u64::from(hexadecimal(said.one));
    (target + 0x2_0000_0000 - u64::from(said.pc) - 8) % 0x1_0000_0000 / 4 % 0x0100_0000
}

// b and bl.
pub fn branch_candidate(said: &Said) -> u64
    ensures { result ≡ of_said branch_cand said.now }
{
    said.condition() * 0x1000_0000 + 0x0a00_0000 + said.bits() + field_of(said)
}

// The condition of bx: the bench shows none.
fn cond_shown(said: &Said) -> u64
    ensures { (result ≡ cond_shown said.now.form (arm_cond_number said.now.cond)) × (result ≤ 15) }
{
    match said.form {
        Form::Bench => 0,
        Form::Sheet => said.condition(),
    }
}

// bx.
pub fn bx_candidate(said: &Said) -> u64
    ensures { result ≡ of_said bx_cand said.now }
{
    cond_shown(said) * 0x1000_0000 + 0x012f_ff10 + u64::from(register(said.one))
}

// mrs. Bit 22 is set where there is no C, of CPSR.
pub fn mrs_candidate(said: &Said) -> u64
    ensures { result ≡ of_said mrs_cand said.now }
{
    let saved = u64::from(!has(said.line, b'C'));
    let rd = u64::from(register(said.one));
    said.condition() * 0x1000_0000 + 0x010f_0000 + saved * 0x0040_0000 + rd * 0x1000
}

// What msr moves: behind `_`, operand 2 into the flags, else a register into the whole.
fn moved(said: &Said) -> u64
    ensures { (result ≡ cond (has 95 said.now.line.now) (operand_of (from_word 2 said.now.line.now)) (2 ^ 16 + reg_in 1 said.now.line.now)) × (result < 2 ^ 26) }
{
    if has(said.line, b'_') {
        return operand(said.two);
    }
    0x0001_0000 + u64::from(register(said.one))
}

// msr. Bit 22 is set where S, of SPSR, stands behind the tab.
pub fn msr_candidate(said: &Said) -> u64
    ensures { result ≡ of_said msr_cand said.now }
{
    let saved = u64::from(item_or(behind_word(said.line), 1, 0) == b'S');
    said.condition() * 0x1000_0000 + 0x0128_f000 + saved * 0x0040_0000 + moved(said)
}

// The fourth register, of mla.
fn added(said: &Said) -> u64
    ensures { (result ≡ cond (bit said.now.head.bits 21) (reg_in 4 said.now.line.now) 0) × (result ≤ 16) }
{
    if bit(said.head.bits, 21) {
        return u64::from(register(next_word(said.three())));
    }
    0
}

// mul and mla.
pub fn mul_candidate(said: &Said) -> u64
    ensures { result ≡ of_said mul_cand said.now }
{
    let rd = u64::from(register(said.one));
    let rm = u64::from(register(said.two));
    let rs = u64::from(register(said.three()));
    let top = said.condition() * 0x1000_0000 + said.bits() + rd * 0x0001_0000;
    top + added(said) * 0x1000 + rs * 0x0100 + 0x90 + rm
}

// mull and mlal.
pub fn mull_candidate(said: &Said) -> u64
    ensures { result ≡ of_said mull_cand said.now }
{
    let lo = u64::from(register(said.one));
    let hi = u64::from(register(said.two));
    let three = said.three();
    let rm = u64::from(register(three));
    let rs = u64::from(register(next_word(three)));
    let top = said.condition() * 0x1000_0000 + 0x0080_0000 + said.bits() + hi * 0x0001_0000;
    top + lo * 0x1000 + rs * 0x0100 + 0x90 + rm
}

// swi.
pub fn swi_candidate(said: &Said) -> u64
    ensures { result ≡ of_said swi_cand said.now }
{
    said.condition() * 0x1000_0000 + 0x0f00_0000 + u64::from(hexadecimal(said.one))
}

// swp.
pub fn swp_candidate(said: &Said) -> u64
    ensures { result ≡ of_said swp_cand said.now }
{
    let rd = u64::from(register(said.one));
    let rm = u64::from(register(said.two));
    let rn = u64::from(register(said.three()));
    let top = said.condition() * 0x1000_0000 + 0x0100_0000 + said.bits() + rn * 0x0001_0000;
    top + rd * 0x1000 + 0x90 + rm
}
