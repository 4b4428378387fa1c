//! The address that a sheet line shows, and the line where its word stands elsewhere. A line shows one address at most, and that in its last ten bytes (`0x` and
//! eight digits); where the word stands `d` bytes further on, modulo 2^32, the address is `d` higher and all other bytes are the same. Of a Thumb load from pc that
//! is promised where `d` is a multiple of 4.
//!
//! Which lines show an address is a list by kind, and nobody has to trust it: were a kind missing, there would be a line that changes with the place where the
//! answer is `None` (`unmoved`); and were one too many on it, there would be a line that does not end in the address answered (`shown`), or not in one that goes
//! on with the place (`moved`).
#![tactic(auto)]

ghost use Rattle.std.specs.Prelude.{◌≡◌, ◌↔◌, ◌%◌, ℕ, List, IfSome, None};
ghost use Rattle.arm7tdmi.specs.Signed.{moved};
ghost use Rattle.arm7tdmi.specs.declared.Form.TheVariants.{Sheet};
ghost use Rattle.lines.specs.Answer.{printed};
ghost use Rattle.arm_print.specs.Print.{arm_line};
ghost use Rattle.thumb.specs.Kinds.{thumb_format};
ghost use Rattle.thumb.specs.declared.ThumbFormat.TheVariants.{LdrPc};
ghost use Rattle.thumb_print.specs.Print.{thumb_line};
ghost use Rattle.pairs.specs.Print.{pair_line};
ghost use Rattle.line_address.specs.Shown.{EndsIn, arm_address, arm_kind_address, comment_address, pair_address, thumb_address, thumb_kind_address};
ghost use Rattle.line_address.specs.Elsewhere.{raised, showing};

use arm::{ArmFormat, arm_format, ldr_str_hs_imm_offset, ldr_str_offset, pc_relative};
use arm7tdmi::Form;
use arm7tdmi::alu::BarrelShifterValue;
use arm7tdmi::bit::bit_range;
use thumb::{ThumbFormat, bcond_target, is_pair, pair_target, pc_load_address};
use thumb_top::word_kind;

// The address in the comment of a transfer by an offset, if the base is pc.
fn comment_address(raw: u32, pc: u32, offset: BarrelShifterValue) -> Option<u32>
    ensures { result ≡ comment_address pc raw offset }
{
    match offset {
        BarrelShifterValue::ImmediateValue(v) if bit_range(raw, 16, 20) == 15 => {
            Some(pc_relative(pc, v))
        }
        _ => None,
    }
}

// The address that the line of an ARM word of a kind shows.
fn arm_kind_address(fmt: ArmFormat, raw: u32, pc: u32) -> Option<u32>
    ensures { result ≡ arm_kind_address fmt pc raw }
{
    match fmt {
        ArmFormat::BranchLink => Some(arm::branch_target(pc, raw)),
        ArmFormat::SingleDataTransfer => comment_address(raw, pc, ldr_str_offset(raw)),
        ArmFormat::HalfwordDataTransferImmediateOffset => {
            comment_address(raw, pc, ldr_str_hs_imm_offset(raw))
        }
        _ => None,
    }
}

// The address that the line of a Thumb halfword of a kind shows.
fn thumb_kind_address(fmt: ThumbFormat, raw: u32, pc: u32) -> Option<u32>
    ensures { result ≡ thumb_kind_address fmt pc raw }
{
    match fmt {
        ThumbFormat::LdrPc => Some(pc_load_address(pc, raw)),
        ThumbFormat::BranchConditional => Some(bcond_target(pc, raw)),
        ThumbFormat::Branch => Some(thumb::branch_target(pc, raw)),
        _ => None,
    }
}

/// The address that the sheet line of an ARM word at an address shows: where a branch goes, or in the comment what a transfer with an offset from pc reads or writes.
/// `None` where the line shows none, and where the word is refused with 1, 2 or 9 and has no line.
#[tactic(auto, using(crate::proofs::Arm::arm_tested, crate::proofs::Arm::arm_ends, crate::proofs::Arm::arm_moved, crate::proofs::Arm::arm_unmoved, crate::proofs::Arm::arm_same))]
pub fn arm_address(raw: u32, pc: u32) -> Option<u32>
    ensures address { result ≡ arm_address pc raw }
    ensures shown { IfSome result (EndsIn (arm_line Sheet pc raw)) }

    // The word further on: what it shows, where that is the same, and what its print answers for a buffer, a length or a refusal, 3 among them.
    ensures moved { (d : ℕ) → arm_line Sheet (moved pc d) raw ≡ showing (raised d result) (arm_line Sheet pc raw) }
    ensures unmoved { (result ≡ None) ↔ ((d : ℕ) → arm_line Sheet (moved pc d) raw ≡ arm_line Sheet pc raw) }
    ensures same_answer { (d : ℕ) (buffer : List ℕ) → (printed (arm_line Sheet (moved pc d) raw) buffer).0 ≡ (printed (arm_line Sheet pc raw) buffer).0 }
{
    if arm_print::is_invalid(Form::Sheet, raw) {
        return None;
    }
    arm_kind_address(arm_format(Form::Sheet, raw), raw, pc)
}

/// The address that the sheet line of a Thumb halfword at an address shows: where a branch goes, or what a load from pc reads. `None` where the line shows none; the
/// number of a lone call half is no address. No halfword is refused. A load from pc clears bit 1 of where it stands, so its address goes on with it by multiples of
/// 4, and by other distances it need not.
#[tactic(auto, using(crate::proofs::Thumb::thumb_ends, crate::proofs::Thumb::thumb_moved, crate::proofs::Thumb::thumb_unmoved, crate::proofs::Thumb::thumb_same), unfolding(crate::specs::Shown::thumb_address))]
pub fn thumb_address(raw: u16, pc: u32) -> Option<u32>
    ensures address { result ≡ thumb_address pc raw }
    ensures shown { IfSome result (EndsIn (thumb_line Sheet pc raw)) }

    // The halfword further on, as for an ARM word.
    ensures moved { (d : ℕ) → (thumb_format Sheet raw ≡ LdrPc → d % 4 ≡ 0) → thumb_line Sheet (moved pc d) raw ≡ showing (raised d result) (thumb_line Sheet pc raw) }
    ensures unmoved { (result ≡ None) ↔ ((d : ℕ) → thumb_line Sheet (moved pc d) raw ≡ thumb_line Sheet pc raw) }
    ensures same_answer { (d : ℕ) (buffer : List ℕ) → (printed (thumb_line Sheet (moved pc d) raw) buffer).0 ≡ (printed (thumb_line Sheet pc raw) buffer).0 }
{
    thumb_kind_address(word_kind(Form::Sheet, raw), u32::from(raw), pc)
}

/// The address that the sheet line of a call pair at an address shows: where the call goes. `None` where the halfwords are no pair: their print is refused with 5.
#[tactic(auto, using(crate::proofs::Thumb::pair_ends, crate::proofs::Thumb::pair_moved, crate::proofs::Thumb::pair_unmoved, crate::proofs::Thumb::pair_same), unfolding(crate::specs::Shown::pair_address))]
pub fn pair_address(first: u16, second: u16, pc: u32) -> Option<u32>
    ensures address { result ≡ pair_address pc first second }
    ensures shown { IfSome result (EndsIn (pair_line pc first second)) }

    // The halfwords further on, as for an ARM word; the refusals are 5 and 3.
    ensures moved { (d : ℕ) → pair_line (moved pc d) first second ≡ showing (raised d result) (pair_line pc first second) }
    ensures unmoved { (result ≡ None) ↔ ((d : ℕ) → pair_line (moved pc d) first second ≡ pair_line pc first second) }
    ensures same_answer { (d : ℕ) (buffer : List ℕ) → (printed (pair_line (moved pc d) first second) buffer).0 ≡ (printed (pair_line pc first second) buffer).0 }
{
    if !is_pair(first, second) {
        return None;
    }
    Some(pair_target(pc, u32::from(first), u32::from(second)))
}
