// The lines of ARM words, bench and sheet.
#![tactic(auto, using(text::proofs::Puts::written), unfolding(crate::specs::Line::op_text, crate::specs::Line::halfword_text, crate::specs::Line::cond_mark, crate::specs::Line::bx_cond, crate::specs::Line::fmt_bx, crate::specs::Line::fmt_branch, crate::specs::Line::fmt_move, crate::specs::Line::fmt_test, crate::specs::Line::fmt_three, crate::specs::Line::fmt_opcode, crate::specs::Line::fmt_data_processing, crate::specs::Line::user_mark, crate::specs::Line::fmt_ldr_str, crate::specs::Line::fmt_ldm_stm, crate::specs::Line::fmt_mrs, crate::specs::Line::fmt_msr, crate::specs::Line::fmt_msr_flags, crate::specs::Line::fmt_mul_mla, crate::specs::Line::fmt_mull_mlal, crate::specs::Line::fmt_halfword, crate::specs::Line::fmt_ldr_str_hs_imm_offset, crate::specs::Line::fmt_ldr_str_hs_reg_offset, crate::specs::Line::fmt_swi, crate::specs::Line::fmt_swp, crate::specs::Line::line_of))]

ghost use Rattle.std.specs.Prelude.{◌≡◌};
ghost use Rattle.text.specs.Puts.{puts};
ghost use Rattle.text.specs.Wrote.{Wrote};
ghost use Rattle.arm_disass.specs.Line.{line_of};

use arm::ArmFormat;
use arm7tdmi::Form;
use disass::{
    fmt_branch, fmt_bx, fmt_data_processing, fmt_ldm_stm, fmt_ldr_str, fmt_ldr_str_hs_imm_offset,
    fmt_ldr_str_hs_reg_offset, fmt_mrs, fmt_msr, fmt_msr_flags, fmt_mul_mla, fmt_mull_mlal,
    fmt_swi, fmt_swp,
};
use text::put::Writer;

mod disass;

// The line of a word of a kind, from the writer's place on. A `match` on the kind, as in the Rust; Thumb has other kinds, and one of its own.
#[inline(always)]
pub fn put_line(out: &mut Writer<'_>, form: Form, fmt: ArmFormat, pc: u32, raw: u32)
    ensures { out.new ≡ puts out.old (line_of form fmt pc raw) }
{
    match fmt {
        ArmFormat::BranchExchange => fmt_bx(out, form, raw),
        ArmFormat::BranchLink => fmt_branch(out, form, pc, raw),
        ArmFormat::SoftwareInterrupt => fmt_swi(out, raw),
        ArmFormat::Multiply => fmt_mul_mla(out, raw),
        ArmFormat::MultiplyLong => fmt_mull_mlal(out, raw),
        ArmFormat::SingleDataTransfer => fmt_ldr_str(out, form, pc, raw),
        ArmFormat::HalfwordDataTransferRegOffset => {
            fmt_ldr_str_hs_reg_offset(out, form, pc, raw)
        }
        ArmFormat::HalfwordDataTransferImmediateOffset => {
            fmt_ldr_str_hs_imm_offset(out, form, pc, raw)
        }
        ArmFormat::DataProcessing => fmt_data_processing(out, form, raw),
        ArmFormat::BlockDataTransfer => fmt_ldm_stm(out, raw),
        ArmFormat::SingleDataSwap => fmt_swp(out, raw),
        ArmFormat::MoveFromStatus => fmt_mrs(out, raw),
        ArmFormat::MoveToStatus => fmt_msr(out, form, raw),
        ArmFormat::MoveToFlags => fmt_msr_flags(out, form, raw),
        ArmFormat::Undefined => out.put_text(b"<Undefined>"),
    }
}

/// The same from a buffer's start on: the place behind the line. The writer is this function's own and starts at 0, so its place need not lie in memory.
#[inline(never)]
#[tactic(auto, unfolding(text::specs::Puts::puts))]
pub fn put_line_first(buf: &mut [u8], form: Form, fmt: ArmFormat, pc: u32, raw: u32) -> usize
    ensures { Wrote buf.old 0 (line_of form fmt pc raw) buf.new result }
{
    let mut out = Writer { bytes: buf, at: 0 };
    put_line(&mut out, form, fmt, pc, raw);
    out.at
}
