// One function for each `fmt_` function of the Rust, in its order. Of form, address and word each takes what its line shows, so they are no struct.
ghost use Rattle.std.specs.Prelude.{◌≡◌};
ghost use Rattle.text.specs.Puts.{puts};
ghost use Rattle.thumb_disass.specs.Line.{shift_places, fmt_thumb_move_shifted_reg, fmt_thumb_data_process_imm, fmt_thumb_alu_ops, fmt_thumb_high_reg_op_or_bx, fmt_thumb_ldr_pc, fmt_thumb_ldr_str_reg_offset, fmt_thumb_ldr_str_shb, fmt_thumb_ldr_str_imm_offset, fmt_thumb_ldr_str_halfword, fmt_thumb_ldr_str_sp, fmt_thumb_load_address, fmt_thumb_add_sub, fmt_thumb_add_sp, fmt_thumb_push_pop, fmt_thumb_ldm_stm, fmt_thumb_branch_with_cond, fmt_thumb_swi, fmt_thumb_branch, fmt_thumb_branch_long_with_link};

use crate::operation::{put_alu_op, put_op3, put_op5, put_shb, put_shift};
use arm7tdmi::Form;
use arm7tdmi::bit::bit_range;
use lines::{
    put_address, put_cond_at, put_either, put_mark, put_reg_at, put_reg_comma, put_registers,
};
use text::put::Writer;
use thumb::{
    bcond_target, branch_target, call_half, format1_op, format3_op, format4_alu_op, format5_op,
    offset5, pc_load_address, word8,
};
use thumb_operand::{
    imm_offset, put_add_sub_operand, put_base, put_high_operands, put_link, put_sp_offset,
};

// By how many places a register is shifted.
fn shift_places(form: Form, raw: u32) -> u32
    ensures { result ≡ shift_places form raw }
{
    format1_op(raw).amount(form, offset5(raw)).places()
}

pub fn fmt_thumb_move_shifted_reg(out: &mut Writer<'_>, form: Form, raw: u32)
    ensures { out.new ≡ puts out.old (fmt_thumb_move_shifted_reg form raw) }
{
    let op = format1_op(raw);
    let places = shift_places(form, raw);
    put_shift(out, op);
    out.put_byte(b'\t');
    put_reg_comma(out, raw, 0, 3);
    put_reg_at(out, raw, 3, 6);
    out.put_text(b", #");
    out.put_dec(places);
}

pub fn fmt_thumb_data_process_imm(out: &mut Writer<'_>, raw: u32)
    ensures { out.new ≡ puts out.old (fmt_thumb_data_process_imm raw) }
{
    let op = format3_op(raw);
    let value = bit_range(raw, 0, 8);
    put_op3(out, op);
    out.put_byte(b'\t');
    put_reg_at(out, raw, 8, 11);
    out.put_text(b", #");
    out.put_0x(1, value);
}

pub fn fmt_thumb_alu_ops(out: &mut Writer<'_>, raw: u32)
    ensures { out.new ≡ puts out.old (fmt_thumb_alu_ops raw) }
{
    let op = format4_alu_op(raw);
    put_alu_op(out, op);
    out.put_byte(b'\t');
    put_reg_comma(out, raw, 0, 3);
    put_reg_at(out, raw, 3, 6);
}

pub fn fmt_thumb_high_reg_op_or_bx(out: &mut Writer<'_>, form: Form, raw: u32)
    ensures { out.new ≡ puts out.old (fmt_thumb_high_reg_op_or_bx form raw) }
{
    let op = format5_op(raw);
    put_op5(out, op);
    out.put_byte(b'\t');
    put_high_operands(out, form, raw, op);
}

pub fn fmt_thumb_ldr_pc(out: &mut Writer<'_>, form: Form, pc: u32, raw: u32)
    ensures { out.new ≡ puts out.old (fmt_thumb_ldr_pc form pc raw) }
{
    let imm = word8(raw);
    let effective = pc_load_address(pc, raw);
    out.put_text(b"ldr\t");
    put_reg_at(out, raw, 8, 11);
    out.put_text(b", [pc, #");
    out.put_0x(1, imm);
    out.put_text(b"] ; = #");
    put_address(out, form, effective);
}

// This function and the three below end alike, two by two; each stands for one of the Rust's.
pub fn fmt_thumb_ldr_str_reg_offset(out: &mut Writer<'_>, raw: u32)
    ensures { out.new ≡ puts out.old (fmt_thumb_ldr_str_reg_offset raw) }
{
    put_either(out, raw, 11, b"ldr", b"str");
    put_mark(out, raw, 10, b'b');
    out.put_byte(b'\t');
    put_reg_at(out, raw, 0, 3);
    out.put_text(b", [");
    put_reg_comma(out, raw, 3, 6);
    put_reg_at(out, raw, 6, 9);
    out.put_byte(b']');
}

pub fn fmt_thumb_ldr_str_shb(out: &mut Writer<'_>, raw: u32)
    ensures { out.new ≡ puts out.old (fmt_thumb_ldr_str_shb raw) }
{
    put_shb(out, raw);
    out.put_byte(b'\t');
    put_reg_at(out, raw, 0, 3);
    out.put_text(b", [");
    put_reg_comma(out, raw, 3, 6);
    put_reg_at(out, raw, 6, 9);
    out.put_byte(b']');
}

pub fn fmt_thumb_ldr_str_imm_offset(out: &mut Writer<'_>, raw: u32)
    ensures { out.new ≡ puts out.old (fmt_thumb_ldr_str_imm_offset raw) }
{
    let imm = imm_offset(raw);
    put_either(out, raw, 11, b"ldr", b"str");
    put_mark(out, raw, 12, b'b');
    out.put_byte(b'\t');
    put_reg_at(out, raw, 0, 3);
    out.put_text(b", [");
    put_reg_at(out, raw, 3, 6);
    out.put_text(b", #");
    out.put_0x(1, imm);
    out.put_byte(b']');
}

pub fn fmt_thumb_ldr_str_halfword(out: &mut Writer<'_>, raw: u32)
    ensures { out.new ≡ puts out.old (fmt_thumb_ldr_str_halfword raw) }
{
    let imm = offset5(raw) * 2;
    put_either(out, raw, 11, b"ldrh", b"strh");
    out.put_byte(b'\t');
    put_reg_at(out, raw, 0, 3);
    out.put_text(b", [");
    put_reg_at(out, raw, 3, 6);
    out.put_text(b", #");
    out.put_0x(1, imm);
    out.put_byte(b']');
}

pub fn fmt_thumb_ldr_str_sp(out: &mut Writer<'_>, raw: u32)
    ensures { out.new ≡ puts out.old (fmt_thumb_ldr_str_sp raw) }
{
    let imm = word8(raw);
    put_either(out, raw, 11, b"ldr", b"str");
    out.put_byte(b'\t');
    put_reg_at(out, raw, 8, 11);
    out.put_text(b", [sp, #");
    out.put_0x(1, imm);
    out.put_byte(b']');
}

pub fn fmt_thumb_load_address(out: &mut Writer<'_>, raw: u32)
    ensures { out.new ≡ puts out.old (fmt_thumb_load_address raw) }
{
    let imm = word8(raw);
    out.put_text(b"add\t");
    put_reg_comma(out, raw, 8, 11);
    put_either(out, raw, 11, b"sp", b"pc");
    out.put_text(b", #");
    out.put_0x(1, imm);
}

pub fn fmt_thumb_add_sub(out: &mut Writer<'_>, raw: u32)
    ensures { out.new ≡ puts out.old (fmt_thumb_add_sub raw) }
{
    put_either(out, raw, 9, b"sub", b"add");
    out.put_byte(b'\t');
    put_reg_comma(out, raw, 0, 3);
    put_reg_comma(out, raw, 3, 6);
    put_add_sub_operand(out, raw);
}

pub fn fmt_thumb_add_sp(out: &mut Writer<'_>, form: Form, raw: u32)
    ensures { out.new ≡ puts out.old (fmt_thumb_add_sp form raw) }
{
    out.put_text(b"add\tsp, #");
    put_sp_offset(out, form, raw);
}

pub fn fmt_thumb_push_pop(out: &mut Writer<'_>, raw: u32)
    ensures { out.new ≡ puts out.old (fmt_thumb_push_pop raw) }
{
    put_either(out, raw, 11, b"pop", b"push");
    out.put_text(b"\t{");
    put_registers(out, raw, 8);
    put_link(out, raw);
    out.put_byte(b'}');
}

pub fn fmt_thumb_ldm_stm(out: &mut Writer<'_>, form: Form, raw: u32)
    ensures { out.new ≡ puts out.old (fmt_thumb_ldm_stm form raw) }
{
    put_either(out, raw, 11, b"ldm", b"stm");
    out.put_byte(b'\t');
    put_base(out, form, raw);
    out.put_text(b"!, {");
    put_registers(out, raw, 8);
    out.put_byte(b'}');
}

pub fn fmt_thumb_branch_with_cond(out: &mut Writer<'_>, form: Form, pc: u32, raw: u32)
    ensures { out.new ≡ puts out.old (fmt_thumb_branch_with_cond form pc raw) }
{
    let target = bcond_target(pc, raw);
    out.put_byte(b'b');
    put_cond_at(out, raw, 8, 12);
    out.put_byte(b'\t');
    put_address(out, form, target);
}

pub fn fmt_thumb_swi(out: &mut Writer<'_>, raw: u32)
    ensures { out.new ≡ puts out.old (fmt_thumb_swi raw) }
{
    let value = bit_range(raw, 0, 8);
    out.put_text(b"swi\t");
    out.put_0x(1, value);
}

pub fn fmt_thumb_branch(out: &mut Writer<'_>, form: Form, pc: u32, raw: u32)
    ensures { out.new ≡ puts out.old (fmt_thumb_branch form pc raw) }
{
    let target = branch_target(pc, raw);
    out.put_text(b"b\t");
    put_address(out, form, target);
}

pub fn fmt_thumb_branch_long_with_link(out: &mut Writer<'_>, raw: u32)
    ensures { out.new ≡ puts out.old (fmt_thumb_branch_long_with_link raw) }
{
    let half = call_half(raw);
    out.put_text(b"bl\t#");
    out.put_0x(8, half);
}
