// Operands of Thumb lines that are more than a field. Of form and word each function takes what it shows, so they are no struct.
#![tactic(auto, using(text::proofs::Puts::written), unfolding(crate::specs::Operand::high_dst, crate::specs::Operand::dst_reg, crate::specs::Operand::src_reg, crate::specs::Operand::imm_offset, crate::specs::Operand::sp_size, crate::specs::Operand::sp_bits, crate::specs::Operand::dst_and_src, crate::specs::Operand::high_operands, crate::specs::Operand::add_sub_operand, crate::specs::Operand::sheet_sp_offset, crate::specs::Operand::sp_offset, crate::specs::Operand::link_name, crate::specs::Operand::link_text, crate::specs::Operand::base_text))]

ghost use Rattle.std.specs.Prelude.{◌≡◌};
ghost use Rattle.text.specs.Puts.{puts};
ghost use Rattle.thumb_operand.specs.Operand.{high_dst, dst_reg, src_reg, dst_and_src, high_operands, imm_offset, add_sub_operand, sp_size, sp_bits, sheet_sp_offset, sp_offset, link_name, link_text, base_text};

use arm7tdmi::bit::{bit, bit_range};
use arm7tdmi::{Form, put_reg};
use lines::{put_either, put_mark, put_reg_at};
use text::put::Writer;
use thumb::{OpFormat5, is_immediate_operand, offset5, register_list, rs};

// S5: with bit 7 set, the sheet adds 8 to bits 2-0, the bench takes bits 3-0.
fn high_dst(form: Form, raw: u32) -> u32
    ensures { result ≡ high_dst form raw }
{
    match form {
        Form::Bench => bit_range(raw, 0, 4),
        Form::Sheet => bit_range(raw, 0, 3) + 8,
    }
}

fn dst_reg(form: Form, raw: u32) -> u32
    ensures { result ≡ dst_reg form raw }
{
    if bit(raw, 7) {
        return high_dst(form, raw);
    }
    bit_range(raw, 0, 3)
}

fn src_reg(raw: u32) -> u32
    ensures { result ≡ src_reg raw }
{
    if bit(raw, 6) {
        return rs(raw) + 8;
    }
    rs(raw)
}

#[inline(always)]
fn put_dst_and_src(out: &mut Writer<'_>, form: Form, raw: u32)
    ensures { out.new ≡ puts out.old (dst_and_src form raw) }
{
    let dst = dst_reg(form, raw);
    let src = src_reg(raw);
    put_reg(out, dst);
    out.put_text(b", ");
    put_reg(out, src);
}

// bx has no destination.
pub fn put_high_operands(out: &mut Writer<'_>, form: Form, raw: u32, op: OpFormat5)
    ensures { out.new ≡ puts out.old (high_operands form raw op) }
{
    match op {
        OpFormat5::ADD => put_dst_and_src(out, form, raw),
        OpFormat5::CMP => put_dst_and_src(out, form, raw),
        OpFormat5::MOV => put_dst_and_src(out, form, raw),
        OpFormat5::BX => put_reg(out, src_reg(raw)),
    }
}

// Bytes are counted by one, words by four.
pub fn imm_offset(raw: u32) -> u32
    ensures { result ≡ imm_offset raw }
{
    if bit(raw, 12) {
        return offset5(raw);
    }
    offset5(raw) * 4
}

// A bare hexadecimal number, or a register.
pub fn put_add_sub_operand(out: &mut Writer<'_>, raw: u32)
    ensures { out.new ≡ puts out.old (add_sub_operand raw) }
{
    if is_immediate_operand(raw) {
        out.put_byte(b'#');
        out.put_hex(1, bit_range(raw, 6, 9));
    } else {
        put_reg_at(out, raw, 6, 9);
    }
}

// The offset without its sign. It is not taken of `thumb::sword7`, which has the signed number: the sheet shows a minus by bit 7, also before 0, and the
// bench 32 bits.
fn sp_size(raw: u32) -> u32
    ensures { result ≡ sp_size raw }
{
    bit_range(raw, 0, 7) * 4
}

// The offset as 32 bits: with bit 7 set, the two's complement.
fn sp_bits(raw: u32) -> u32
    ensures { result ≡ sp_bits raw }
{
    let size = sp_size(raw);
    if bit(raw, 7) {
        return size.wrapping_neg();
    }
    size
}

fn put_sheet_sp_offset(out: &mut Writer<'_>, raw: u32)
    ensures { out.new ≡ puts out.old (sheet_sp_offset raw) }
{
    let size = sp_size(raw);
    put_mark(out, raw, 7, b'-');
    out.put_0x(1, size);
}

// S8: the sheet has a sign and `0x`, the bench bare digits.
pub fn put_sp_offset(out: &mut Writer<'_>, form: Form, raw: u32)
    ensures { out.new ≡ puts out.old (sp_offset form raw) }
{
    match form {
        Form::Bench => out.put_hex(1, sp_bits(raw)),
        Form::Sheet => put_sheet_sp_offset(out, raw),
    }
}

fn put_link_name(out: &mut Writer<'_>, raw: u32)
    ensures { out.new ≡ puts out.old (link_name raw) }
{
    put_either(out, raw, 11, b"pc", b"lr");
}

// lr or pc behind the list, with a comma before it where the list has a register.
pub fn put_link(out: &mut Writer<'_>, raw: u32)
    ensures { out.new ≡ puts out.old (link_text raw) }
{
    if bit(raw, 8) {
        if register_list(raw) != 0 {
            out.put_text(b", ");
        }
        put_link_name(out, raw);
    }
}

// S6: the sheet takes the base from bits 10-8, the bench from 5-3.
pub fn put_base(out: &mut Writer<'_>, form: Form, raw: u32)
    ensures { out.new ≡ puts out.old (base_text form raw) }
{
    match form {
        Form::Bench => put_reg_at(out, raw, 3, 6),
        Form::Sheet => put_reg_at(out, raw, 8, 11),
    }
}
