// The lines of Thumb words, bench and sheet.
#![tactic(auto, using(text::proofs::Puts::written), unfolding(crate::specs::Line::shift_places, crate::specs::Line::fmt_thumb_move_shifted_reg, crate::specs::Line::fmt_thumb_data_process_imm, crate::specs::Line::fmt_thumb_alu_ops, crate::specs::Line::fmt_thumb_high_reg_op_or_bx, crate::specs::Line::fmt_thumb_ldr_pc, crate::specs::Line::fmt_thumb_ldr_str_reg_offset, crate::specs::Line::fmt_thumb_ldr_str_shb, crate::specs::Line::fmt_thumb_ldr_str_imm_offset, crate::specs::Line::fmt_thumb_ldr_str_halfword, crate::specs::Line::fmt_thumb_ldr_str_sp, crate::specs::Line::fmt_thumb_load_address, crate::specs::Line::fmt_thumb_add_sub, crate::specs::Line::fmt_thumb_add_sp, crate::specs::Line::fmt_thumb_push_pop, crate::specs::Line::fmt_thumb_ldm_stm, crate::specs::Line::fmt_thumb_branch_with_cond, crate::specs::Line::fmt_thumb_swi, crate::specs::Line::fmt_thumb_branch, crate::specs::Line::fmt_thumb_branch_long_with_link, crate::specs::Line::shift_text, crate::specs::Line::op3_text, crate::specs::Line::op5_text, crate::specs::Line::alu_op_text, crate::specs::Line::shb_text, crate::specs::Line::line_of))]

ghost use Rattle.std.specs.Prelude.{◌≡◌};
ghost use Rattle.text.specs.Puts.{puts};
ghost use Rattle.text.specs.Wrote.{Wrote};
ghost use Rattle.thumb_disass.specs.Line.{line_of};

use arm7tdmi::Form;
use disass::{
    fmt_thumb_add_sp, fmt_thumb_add_sub, fmt_thumb_alu_ops, fmt_thumb_branch,
    fmt_thumb_branch_long_with_link, fmt_thumb_branch_with_cond, fmt_thumb_data_process_imm,
    fmt_thumb_high_reg_op_or_bx, fmt_thumb_ldm_stm, fmt_thumb_ldr_pc, fmt_thumb_ldr_str_halfword,
    fmt_thumb_ldr_str_imm_offset, fmt_thumb_ldr_str_reg_offset, fmt_thumb_ldr_str_shb,
    fmt_thumb_ldr_str_sp, fmt_thumb_load_address, fmt_thumb_move_shifted_reg, fmt_thumb_push_pop,
    fmt_thumb_swi,
};
use text::put::Writer;
use thumb::ThumbFormat;

mod disass;
mod operation;

// The line of a word of a kind, from the writer's place on. A `match` on the kind, as in the Rust; ARM has other kinds, and one of its own.
#[inline(always)]
pub fn put_line(out: &mut Writer<'_>, form: Form, fmt: ThumbFormat, pc: u32, raw: u32)
    ensures { out.new ≡ puts out.old (line_of form fmt pc raw) }
{
    match fmt {
        ThumbFormat::MoveShiftedReg => fmt_thumb_move_shifted_reg(out, form, raw),
        ThumbFormat::AddSub => fmt_thumb_add_sub(out, raw),
        ThumbFormat::DataProcessImm => fmt_thumb_data_process_imm(out, raw),
        ThumbFormat::AluOps => fmt_thumb_alu_ops(out, raw),
        ThumbFormat::HiRegOpOrBranchExchange => fmt_thumb_high_reg_op_or_bx(out, form, raw),
        ThumbFormat::LdrPc => fmt_thumb_ldr_pc(out, form, pc, raw),
        ThumbFormat::LdrStrRegOffset => fmt_thumb_ldr_str_reg_offset(out, raw),
        ThumbFormat::LdrStrSHB => fmt_thumb_ldr_str_shb(out, raw),
        ThumbFormat::LdrStrImmOffset => fmt_thumb_ldr_str_imm_offset(out, raw),
        ThumbFormat::LdrStrHalfWord => fmt_thumb_ldr_str_halfword(out, raw),
        ThumbFormat::LdrStrSp => fmt_thumb_ldr_str_sp(out, raw),
        ThumbFormat::LoadAddress => fmt_thumb_load_address(out, raw),
        ThumbFormat::AddSp => fmt_thumb_add_sp(out, form, raw),
        ThumbFormat::PushPop => fmt_thumb_push_pop(out, raw),
        ThumbFormat::LdmStm => fmt_thumb_ldm_stm(out, form, raw),
        ThumbFormat::BranchConditional => fmt_thumb_branch_with_cond(out, form, pc, raw),
        ThumbFormat::Swi => fmt_thumb_swi(out, raw),
        ThumbFormat::Branch => fmt_thumb_branch(out, form, pc, raw),
        ThumbFormat::BranchLongWithLink => fmt_thumb_branch_long_with_link(out, raw),
        ThumbFormat::Undefined => out.put_text(b"<Undefined>"),
    }
}

/// The same from a buffer's start on: the place behind the line. The writer is this function's own and starts at 0, so its place need not lie in memory.
#[inline(never)]
#[tactic(auto, unfolding(text::specs::Puts::puts))]
pub fn put_line_first(buf: &mut [u8], form: Form, fmt: ThumbFormat, pc: u32, raw: u32) -> usize
    ensures { Wrote buf.old 0 (line_of form fmt pc raw) buf.new result }
{
    let mut out = Writer { bytes: buf, at: 0 };
    put_line(&mut out, form, fmt, pc, raw);
    out.at
}
