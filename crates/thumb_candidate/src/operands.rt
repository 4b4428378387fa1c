// The candidate of a row.
ghost use Rattle.std.specs.Prelude.{◌≡◌, List, ℕ};
ghost use Rattle.thumb_candidate.specs.Candidate.{candidate, operands, suits};
ghost use Rattle.thumb_candidate.specs.Taken.{Named};

use crate::fields::{
    add_sub, address, block, call, high, low, offset, shifted, sp, stack, three_low, transfer,
    wide, with_byte, with_number,
};
use crate::parts::{Regs, Sought};
use reading::parts::hexadecimal;
use thumb::ThumbFormat;
use thumb_mnemonic::Row;

/// Whether a kind may have printed a line with its mnemonic, by the registers that the line's words 2 and 3 name: the same for every line that names them.
#[tactic(auto, unfolding(crate::specs::Candidate::suits))]
pub fn suits_registers(kind: ThumbFormat, regs: Regs) -> bool
    ensures { (l : List ℕ) → Named l regs.first regs.second regs.third → result ≡ suits kind l }
{
    let Regs { second, third, .. } = regs;
    match kind {
        ThumbFormat::AddSub => second < 8,
        ThumbFormat::DataProcessImm => second == 16,
        ThumbFormat::LdrPc => second == 15,
        ThumbFormat::LdrStrRegOffset | ThumbFormat::LdrStrSHB => third < 8,
        ThumbFormat::LdrStrImmOffset | ThumbFormat::LdrStrHalfWord => second < 8,
        ThumbFormat::LdrStrSp => second == 13,
        ThumbFormat::LoadAddress => 12 < second,
        _ => true,
    }
}

// The same of the line that is looked for.
pub fn suits(kind: ThumbFormat, sought: &Sought) -> bool
    ensures { result ≡ suits kind sought.now.line.now }
{
    let Sought {
        first,
        second,
        third,
        ..
    } = *sought;
    suits_registers(
        kind,
        Regs {
            first,
            second,
            third,
        },
    )
}

// What the operands of a line fill in, of a kind and the bits of its mnemonic.
#[tactic(auto, unfolding(crate::specs::Candidate::operands))]
fn operands_of(kind: ThumbFormat, bits: u16, sought: &Sought) -> u32
    ensures { result ≡ operands kind bits sought.now.form sought.now.pc sought.now.line.now }
{
    match kind {
        ThumbFormat::MoveShiftedReg => shifted(sought),
        ThumbFormat::AddSub => add_sub(sought),
        ThumbFormat::DataProcessImm => u32::from(with_byte(sought, hexadecimal(sought.two))),
        ThumbFormat::AluOps => u32::from(low(sought)),
        ThumbFormat::HiRegOpOrBranchExchange => u32::from(high(bits, sought)),
        ThumbFormat::LdrPc | ThumbFormat::LdrStrSp => u32::from(wide(sought)),
        ThumbFormat::LdrStrRegOffset | ThumbFormat::LdrStrSHB => three_low(sought),
        ThumbFormat::LdrStrImmOffset => transfer(bits, sought),
        ThumbFormat::LdrStrHalfWord => with_number(sought, hexadecimal(sought.three) / 2),
        ThumbFormat::LoadAddress => address(sought),
        ThumbFormat::AddSp => sp(sought),
        ThumbFormat::PushPop => stack(sought),
        ThumbFormat::LdmStm => block(sought),
        ThumbFormat::BranchConditional => offset(sought) % 256,
        ThumbFormat::Swi => hexadecimal(sought.one) % 256,
        ThumbFormat::Branch => offset(sought) % 2048,
        ThumbFormat::BranchLongWithLink => call(bits, sought),
        ThumbFormat::Undefined => 0,
    }
}

// The candidate of a row.
#[tactic(auto, unfolding(crate::specs::Candidate::candidate))]
pub fn candidate_of(row: Row, sought: &Sought) -> u16
    ensures { result ≡ candidate sought.now.form sought.now.pc sought.now.line.now row.1 row.0 }
{
    let Row(bits, kind) = row;
    bits.wrapping_add((operands_of(kind, bits, sought) % 0x1_0000) as u16)
}
