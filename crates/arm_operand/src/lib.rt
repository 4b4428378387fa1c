// Operands of ARM lines that are more than a field. Of form, address and word each function takes what it shows, so they are no struct.
#![tactic(auto, using(text::proofs::Puts::written), unfolding(crate::specs::Operand::shift_text, crate::specs::Operand::places_text, crate::specs::Operand::amount_text, crate::specs::Operand::by_amount, crate::specs::Operand::by_register, crate::specs::Operand::shift_by, crate::specs::Operand::shifted_register, crate::specs::Operand::immediate, crate::specs::Operand::decoded_text, crate::specs::Operand::fmt_operand2, crate::specs::Operand::bench_offset, crate::specs::Operand::magnitude, crate::specs::Operand::sheet_offset, crate::specs::Operand::immediate_offset, crate::specs::Operand::sign_text, crate::specs::Operand::signed_register, crate::specs::Operand::offset_text, crate::specs::Operand::indexed, crate::specs::Operand::value_comment, crate::specs::Operand::comment, crate::specs::Operand::fmt_rn_offset, crate::specs::Operand::rd_text, crate::specs::Operand::added_register, crate::specs::Operand::flag_text, crate::specs::Operand::flags, crate::specs::Operand::flags_comment))]

ghost use Rattle.std.specs.Prelude.{◌≡◌};
ghost use Rattle.text.specs.Puts.{puts};
ghost use Rattle.text.specs.Wrote.{Wrote};
ghost use Rattle.arm_operand.specs.Operand.{shift_text, is_lsl0, places_text, amount_text, by_amount, by_register, shift_by, shifted_register, immediate, decoded_text, fmt_operand2, bench_offset, magnitude, sheet_offset, immediate_offset, sign_text, signed_register, offset_text, indexed, value_comment, comment, fmt_rn_offset, rd_text, flag_text, flags, flags_comment, added_register};

use arm::pc_relative;
use arm7tdmi::alu::{
    Amount, BarrelShiftOpCode, BarrelShifterValue, ShiftRegisterBy, ShiftedRegister,
};
use arm7tdmi::bit::{bit, bit_range};
use arm7tdmi::{Form, put_reg};
use lines::{put_address, put_either, put_mark, put_reg_at};
use text::put::Writer;

// The name of a shift, looked up as an opcode's is.
fn shift_name(op: BarrelShiftOpCode) -> &'static [u8; 3]
    ensures { result.now ≡ shift_text op }
{
    match op {
        BarrelShiftOpCode::LSL => b"lsl",
        BarrelShiftOpCode::LSR => b"lsr",
        BarrelShiftOpCode::ASR => b"asr",
        BarrelShiftOpCode::ROR => b"ror",
    }
}

#[inline(always)]
fn put_shift(out: &mut Writer<'_>, op: BarrelShiftOpCode)
    ensures { out.new ≡ puts out.old (shift_text op) }
{
    out.put_text(shift_name(op));
}

// Whether a shift is LSL #0; the Rust's function of this name answers the opposite.
fn is_lsl0(op: BarrelShiftOpCode, n: u32) -> bool
    ensures { result ≡ is_lsl0 op n }
{
    matches!(op, BarrelShiftOpCode::LSL) && n == 0
}

fn put_places(out: &mut Writer<'_>, op: BarrelShiftOpCode, n: u32)
    ensures { out.new ≡ puts out.old (places_text op n) }
{
    out.put_text(b", ");
    put_shift(out, op);
    out.put_text(b" #");
    out.put_dec(n);
}

fn put_amount(out: &mut Writer<'_>, op: BarrelShiftOpCode, amount: Amount)
    ensures { out.new ≡ puts out.old (amount_text op amount) }
{
    match amount {
        Amount::Places(n) => put_places(out, op, n),
        Amount::Rrx => out.put_text(b", rrx"),
    }
}

fn put_by_amount(out: &mut Writer<'_>, form: Form, op: BarrelShiftOpCode, n: u32)
    ensures { out.new ≡ puts out.old (by_amount form op n) }
{
    if !is_lsl0(op, n) {
        put_amount(out, op, op.amount(form, n));
    }
}

fn put_by_register(out: &mut Writer<'_>, op: BarrelShiftOpCode, rs: u32)
    ensures { out.new ≡ puts out.old (by_register op rs) }
{
    out.put_text(b", ");
    put_shift(out, op);
    out.put_byte(b' ');
    put_reg(out, rs);
}

fn put_shift_by(out: &mut Writer<'_>, form: Form, op: BarrelShiftOpCode, by: ShiftRegisterBy)
    ensures { out.new ≡ puts out.old (shift_by form op by) }
{
    match by {
        ShiftRegisterBy::ByAmount(n) => put_by_amount(out, form, op, n),
        ShiftRegisterBy::ByRegister(rs) => put_by_register(out, op, rs),
    }
}

// A register and how it is shifted, into a buffer from a place on: the place behind them. It takes no writer, as `fmt_rn_offset_at`: one that is lent on lies in
// memory, and each byte that is put loads and stores its place there.
#[tactic(auto, unfolding(text::specs::Puts::puts))]
#[inline(never)]
fn put_shifted_register_at(buf: &mut [u8], at: usize, form: Form, s: ShiftedRegister) -> usize
    ensures { Wrote buf.old at (shifted_register form s) buf.new result }
{
    let mut out = Writer { bytes: buf, at };
    put_shifted_register_to(&mut out, form, s);
    out.at
}

#[inline(always)]
fn put_shifted_register_to(out: &mut Writer<'_>, form: Form, s: ShiftedRegister)
    ensures { out.new ≡ puts out.old (shifted_register form s) }
{
    put_reg(out, s.reg);
    put_shift_by(out, form, s.bs_op, s.shift_by);
}

#[tactic(auto, unfolding(text::specs::Puts::puts))]
#[inline(always)]
fn put_shifted_register(out: &mut Writer<'_>, form: Form, s: ShiftedRegister)
    ensures { out.new ≡ puts out.old (shifted_register form s) }
{
    out.at = put_shifted_register_at(out.bytes, out.at, form, s);
}

#[inline(always)]
fn put_immediate(out: &mut Writer<'_>, v: u32)
    ensures { out.new ≡ puts out.old (immediate v) }
{
    out.put_byte(b'#');
    out.put_dec(v);
    out.put_text(b"\t; ");
    out.put_0x(1, v);
}

#[inline(always)]
fn put_decoded(out: &mut Writer<'_>, d: Option<u32>)
    ensures { out.new ≡ puts out.old (decoded_text d) }
{
    if let Some(v) = d {
        put_immediate(out, v);
    }
}

// Operand 2. The Rust panics on an immediate that is not rotated, which operand 2 never is.
#[inline(always)]
pub fn fmt_operand2(out: &mut Writer<'_>, form: Form, operand: BarrelShifterValue)
    ensures { out.new ≡ puts out.old (fmt_operand2 form operand) }
{
    match operand {
        BarrelShifterValue::ImmediateValue(_) => {}
        BarrelShifterValue::RotatedImmediate(_, _) => {
            put_decoded(out, operand.decode_rotated_immediate())
        }
        BarrelShifterValue::ShiftedRegister(s) => put_shifted_register(out, form, s),
    }
}

#[inline(always)]
fn put_bench_offset(out: &mut Writer<'_>, v: u32)
    ensures { out.new ≡ puts out.old (bench_offset v) }
{
    out.put_byte(b'#');
    out.put_dec(v);
}

// S4: with U clear, a minus sign and the magnitude.
#[inline(always)]
fn put_sheet_offset(out: &mut Writer<'_>, raw: u32, v: u32)
    ensures { out.new ≡ puts out.old (sheet_offset raw v) }
{
    if bit(raw, 23) {
        put_bench_offset(out, v);
    } else {
        out.put_text(b"#-");
        out.put_dec(magnitude(v));
    }
}

// The size of a number below zero.
fn magnitude(v: u32) -> u32
    ensures { result ≡ magnitude v }
{
    v.wrapping_neg()
}

#[inline(always)]
fn put_immediate_offset(out: &mut Writer<'_>, form: Form, raw: u32, v: u32)
    ensures { out.new ≡ puts out.old (immediate_offset form raw v) }
{
    match form {
        Form::Bench => put_bench_offset(out, v),
        Form::Sheet => put_sheet_offset(out, raw, v),
    }
}

// A minus before a register that is subtracted.
fn put_sign(out: &mut Writer<'_>, added: Option<bool>)
    ensures { out.new ≡ puts out.old (sign_text added) }
{
    if added == Some(false) {
        out.put_byte(b'-');
    }
}

#[inline(always)]
fn put_signed_register(out: &mut Writer<'_>, form: Form, s: ShiftedRegister)
    ensures { out.new ≡ puts out.old (signed_register form s) }
{
    put_sign(out, s.added);
    put_shifted_register(out, form, s);
}

#[inline(always)]
fn put_offset(out: &mut Writer<'_>, form: Form, raw: u32, offset: BarrelShifterValue)
    ensures { out.new ≡ puts out.old (offset_text form raw offset) }
{
    match offset {
        BarrelShifterValue::ImmediateValue(v) => put_immediate_offset(out, form, raw, v),
        BarrelShifterValue::RotatedImmediate(_, _) => {}
        BarrelShifterValue::ShiftedRegister(s) => put_signed_register(out, form, s),
    }
}

// The offset before the bracket closes, with the mark of write-back; or behind it.
#[inline(always)]
fn put_indexed(out: &mut Writer<'_>, form: Form, raw: u32, offset: BarrelShifterValue)
    ensures { out.new ≡ puts out.old (indexed form raw offset) }
{
    if bit(raw, 24) {
        out.put_text(b", ");
        put_offset(out, form, raw, offset);
        out.put_byte(b']');
        put_mark(out, raw, 21, b'!');
    } else {
        out.put_text(b"], ");
        put_offset(out, form, raw, offset);
    }
}

// What an immediate offset comes to: with pc as base an address, else the offset itself.
#[inline(always)]
fn put_value(out: &mut Writer<'_>, form: Form, pc: u32, raw: u32, offset: u32)
    ensures { out.new ≡ puts out.old (value_comment form pc raw offset) }
{
    out.put_text(b"\t; ");
    if bit_range(raw, 16, 20) == 15 {
        put_address(out, form, pc_relative(pc, offset));
    } else {
        out.put_0x(1, offset);
    }
}

#[inline(always)]
fn put_comment(out: &mut Writer<'_>, form: Form, pc: u32, raw: u32, offset: BarrelShifterValue)
    ensures { out.new ≡ puts out.old (comment form pc raw offset) }
{
    match offset {
        BarrelShifterValue::ImmediateValue(v) => put_value(out, form, pc, raw, v),
        BarrelShifterValue::RotatedImmediate(_, _) => {}
        BarrelShifterValue::ShiftedRegister(_) => {}
    }
}

#[inline(always)]
fn put_rn_offset(out: &mut Writer<'_>, form: Form, pc: u32, raw: u32, offset: BarrelShifterValue)
    ensures { out.new ≡ puts out.old (fmt_rn_offset form pc raw offset) }
{
    out.put_byte(b'[');
    put_reg_at(out, raw, 16, 20);
    put_indexed(out, form, raw, offset);
    put_comment(out, form, pc, raw, offset);
}

#[tactic(auto, unfolding(text::specs::Puts::puts))]
#[inline(never)]
fn fmt_rn_offset_at(
    buf: &mut [u8],
    at: usize,
    form: Form,
    pc: u32,
    raw: u32,
    offset: BarrelShifterValue,
) -> usize
    ensures { Wrote buf.old at (fmt_rn_offset form pc raw offset) buf.new result }
{
    let mut out = Writer { bytes: buf, at };
    put_rn_offset(&mut out, form, pc, raw, offset);
    out.at
}

// A base register with an offset.
#[tactic(auto, unfolding(text::specs::Puts::puts))]
#[inline(always)]
pub fn fmt_rn_offset(
    out: &mut Writer<'_>,
    form: Form,
    pc: u32,
    raw: u32,
    offset: BarrelShifterValue,
)
    ensures { out.new ≡ puts out.old (fmt_rn_offset form pc raw offset) }
{
    out.at = fmt_rn_offset_at(out.bytes, out.at, form, pc, raw, offset);
}

// S1: the sheet takes Rd from bits 15-12, the bench from 19-16.
#[inline(always)]
pub fn put_rd(out: &mut Writer<'_>, form: Form, raw: u32)
    ensures { out.new ≡ puts out.old (rd_text form raw) }
{
    match form {
        Form::Bench => put_reg_at(out, raw, 16, 20),
        Form::Sheet => put_reg_at(out, raw, 12, 16),
    }
}

// Of mla, the register that is added.
pub fn put_added_register(out: &mut Writer<'_>, raw: u32)
    ensures { out.new ≡ puts out.old (added_register raw) }
{
    if bit(raw, 21) {
        out.put_text(b", ");
        put_reg_at(out, raw, 12, 16);
    }
}

fn put_flag(out: &mut Writer<'_>, v: u32, n: u32)
    ensures { out.new ≡ puts out.old (flag_text v n) }
{
    put_either(out, v, n, b"true", b"false");
}

// The flags of an immediate.
fn put_flags(out: &mut Writer<'_>, v: u32)
    ensures { out.new ≡ puts out.old (flags v) }
{
    out.put_text(b"\t; N=");
    put_flag(out, v, 31);
    out.put_text(b" Z=");
    put_flag(out, v, 30);
    out.put_text(b" C=");
    put_flag(out, v, 29);
    out.put_text(b" V=");
    put_flag(out, v, 28);
}

pub fn put_flags_comment(out: &mut Writer<'_>, d: Option<u32>)
    ensures { out.new ≡ puts out.old (flags_comment d) }
{
    if let Some(v) = d {
        put_flags(out, v);
    }
}
