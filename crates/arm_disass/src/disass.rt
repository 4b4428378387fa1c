// One function for each `fmt_` function of the Rust, in its order. Of form, address and word each takes what its line shows, so they are no struct.
ghost use Rattle.std.specs.Prelude.{◌≡◌, ◌++◌};
ghost use Rattle.text.specs.Text.{text};
ghost use Rattle.text.specs.Puts.{puts};
ghost use Rattle.arm_disass.specs.Line.{cond_mark, op_text, halfword_text, bx_cond, fmt_bx, fmt_branch, fmt_move, fmt_test, fmt_three, fmt_opcode, fmt_data_processing, user_mark, fmt_ldr_str, fmt_ldm_stm, fmt_mrs, fmt_msr, fmt_msr_flags, fmt_mul_mla, fmt_mull_mlal, fmt_halfword, fmt_ldr_str_hs_imm_offset, fmt_ldr_str_hs_reg_offset, fmt_swi, fmt_swp};

use arm::{
    ArmHalfwordTransferType, branch_target, halfword_data_transfer_type, ldr_str_hs_imm_offset,
    ldr_str_hs_reg_offset, ldr_str_offset, opcode, operand2, pre_index_flag, swi_comment,
    write_back_flag,
};
use arm_operand::{fmt_operand2, fmt_rn_offset, put_added_register, put_flags_comment, put_rd};
use arm7tdmi::Form;
use arm7tdmi::alu::{AluOpCode, BarrelShifterValue};
use lines::{
    put_address, put_cond_at, put_either, put_mark, put_reg_at, put_reg_comma, put_registers,
};
use text::put::Writer;

// The name of an opcode. It is looked up, and not put by a `match` of its own: a jump on a random word's opcode is guessed wrong.
fn op_name(op: AluOpCode) -> &'static [u8; 3]
    ensures { result.now ≡ op_text op }
{
    match op {
        AluOpCode::AND => b"and",
        AluOpCode::EOR => b"eor",
        AluOpCode::SUB => b"sub",
        AluOpCode::RSB => b"rsb",
        AluOpCode::ADD => b"add",
        AluOpCode::ADC => b"adc",
        AluOpCode::SBC => b"sbc",
        AluOpCode::RSC => b"rsc",
        AluOpCode::TST => b"tst",
        AluOpCode::TEQ => b"teq",
        AluOpCode::CMP => b"cmp",
        AluOpCode::CMN => b"cmn",
        AluOpCode::ORR => b"orr",
        AluOpCode::MOV => b"mov",
        AluOpCode::BIC => b"bic",
        AluOpCode::MVN => b"mvn",
    }
}

#[inline(always)]
fn put_opcode(out: &mut Writer<'_>, op: AluOpCode)
    ensures { out.new ≡ puts out.old (op_text op) }
{
    out.put_text(op_name(op));
}

fn put_halfword_type(out: &mut Writer<'_>, t: Option<ArmHalfwordTransferType>)
    ensures { out.new ≡ puts out.old (halfword_text t) }
{
    match t {
        Some(ArmHalfwordTransferType::UnsignedHalfwords) => out.put_text(b"h"),
        Some(ArmHalfwordTransferType::SignedByte) => out.put_text(b"sb"),
        Some(ArmHalfwordTransferType::SignedHalfwords) => out.put_text(b"sh"),
        None => {}
    }
}

// The condition of a word, and the tab behind the mnemonic.
fn put_cond_tab(out: &mut Writer<'_>, raw: u32)
    ensures { out.new ≡ puts (puts out.old (cond_mark raw)) (text "\t") }
{
    put_cond_at(out, raw, 28, 32);
    out.put_byte(b'\t');
}

// S3: the sheet's bx has its condition.
fn put_bx_cond(out: &mut Writer<'_>, form: Form, raw: u32)
    ensures { out.new ≡ puts out.old (bx_cond form raw) }
{
    match form {
        Form::Bench => {}
        Form::Sheet => put_cond_at(out, raw, 28, 32),
    }
}

pub fn fmt_bx(out: &mut Writer<'_>, form: Form, raw: u32)
    ensures { out.new ≡ puts out.old (fmt_bx form raw) }
{
    out.put_text(b"bx");
    put_bx_cond(out, form, raw);
    out.put_byte(b'\t');
    put_reg_at(out, raw, 0, 4);
}

pub fn fmt_branch(out: &mut Writer<'_>, form: Form, pc: u32, raw: u32)
    ensures { out.new ≡ puts out.old (fmt_branch form pc raw) }
{
    let target = branch_target(pc, raw);
    out.put_byte(b'b');
    put_mark(out, raw, 24, b'l');
    put_cond_tab(out, raw);
    put_address(out, form, target);
}

// mov and mvn. The Rust has a format for these, one for the tests and one for the others.
fn fmt_move(out: &mut Writer<'_>, form: Form, raw: u32, op: AluOpCode)
    ensures { out.new ≡ puts out.old (fmt_move form raw op) }
{
    put_opcode(out, op);
    put_mark(out, raw, 20, b's');
    put_cond_tab(out, raw);
    put_rd(out, form, raw);
    out.put_text(b", ");
}

// tst, teq, cmp and cmn.
fn fmt_test(out: &mut Writer<'_>, raw: u32, op: AluOpCode)
    ensures { out.new ≡ puts out.old (fmt_test raw op) }
{
    put_opcode(out, op);
    put_cond_tab(out, raw);
    put_reg_comma(out, raw, 16, 20);
}

// The opcodes with three operands.
fn fmt_three(out: &mut Writer<'_>, form: Form, raw: u32, op: AluOpCode)
    ensures { out.new ≡ puts out.old (fmt_three form raw op) }
{
    put_opcode(out, op);
    put_mark(out, raw, 20, b's');
    put_cond_tab(out, raw);
    put_rd(out, form, raw);
    out.put_text(b", ");
    put_reg_comma(out, raw, 16, 20);
}

fn fmt_opcode(out: &mut Writer<'_>, form: Form, raw: u32, op: AluOpCode)
    ensures { out.new ≡ puts out.old (fmt_opcode form raw op) }
{
    if op.is_move() {
        fmt_move(out, form, raw, op);
    } else if op.is_setting_flags() {
        fmt_test(out, raw, op);
    } else {
        fmt_three(out, form, raw, op);
    }
}

pub fn fmt_data_processing(out: &mut Writer<'_>, form: Form, raw: u32)
    ensures { out.new ≡ puts out.old (fmt_data_processing form raw) }
{
    let op = opcode(raw);
    let operand = operand2(raw);
    fmt_opcode(out, form, raw, op);
    fmt_operand2(out, form, operand);
}

// `t`, where P is clear and W set.
fn put_user_mark(out: &mut Writer<'_>, raw: u32)
    ensures { out.new ≡ puts out.old (user_mark raw) }
{
    if !pre_index_flag(raw) {
        out.put_if(write_back_flag(raw), b't');
    }
}

pub fn fmt_ldr_str(out: &mut Writer<'_>, form: Form, pc: u32, raw: u32)
    ensures { out.new ≡ puts out.old (fmt_ldr_str form pc raw) }
{
    let offset = ldr_str_offset(raw);
    put_either(out, raw, 20, b"ldr", b"str");
    put_mark(out, raw, 22, b'b');
    put_user_mark(out, raw);
    put_cond_tab(out, raw);
    put_reg_comma(out, raw, 12, 16);
    fmt_rn_offset(out, form, pc, raw, offset);
}

pub fn fmt_ldm_stm(out: &mut Writer<'_>, raw: u32)
    ensures { out.new ≡ puts out.old (fmt_ldm_stm raw) }
{
    put_either(out, raw, 20, b"ldm", b"stm");
    put_either(out, raw, 23, b"i", b"d");
    put_either(out, raw, 24, b"b", b"a");
    put_cond_tab(out, raw);
    put_reg_at(out, raw, 16, 20);
    put_mark(out, raw, 21, b'!');
    out.put_text(b", {");
    put_registers(out, raw, 16);
    out.put_byte(b'}');
    put_mark(out, raw, 22, b'^');
}

pub fn fmt_mrs(out: &mut Writer<'_>, raw: u32)
    ensures { out.new ≡ puts out.old (fmt_mrs raw) }
{
    out.put_text(b"mrs");
    put_cond_tab(out, raw);
    put_reg_comma(out, raw, 12, 16);
    put_either(out, raw, 22, b"SPSR", b"CPSR");
}

pub fn fmt_msr(out: &mut Writer<'_>, form: Form, raw: u32)
    ensures { out.new ≡ puts out.old (fmt_msr form raw) }
{
    let operand = operand2(raw);
    out.put_text(b"msr");
    put_cond_tab(out, raw);
    put_either(out, raw, 22, b"SPSR", b"CPSR");
    out.put_text(b", ");
    fmt_operand2(out, form, operand);
}

pub fn fmt_msr_flags(out: &mut Writer<'_>, form: Form, raw: u32)
    ensures { out.new ≡ puts out.old (fmt_msr_flags form raw) }
{
    let operand = operand2(raw);
    let decoded = operand.decode_rotated_immediate();
    out.put_text(b"msr");
    put_cond_tab(out, raw);
    put_either(out, raw, 22, b"SPSR_f", b"CPSR_f");
    out.put_text(b", ");
    fmt_operand2(out, form, operand);
    put_flags_comment(out, decoded);
}

pub fn fmt_mul_mla(out: &mut Writer<'_>, raw: u32)
    ensures { out.new ≡ puts out.old (fmt_mul_mla raw) }
{
    put_either(out, raw, 21, b"mla", b"mul");
    put_mark(out, raw, 20, b's');
    put_cond_tab(out, raw);
    put_reg_comma(out, raw, 16, 20);
    put_reg_comma(out, raw, 0, 4);
    put_reg_at(out, raw, 8, 12);
    put_added_register(out, raw);
}

pub fn fmt_mull_mlal(out: &mut Writer<'_>, raw: u32)
    ensures { out.new ≡ puts out.old (fmt_mull_mlal raw) }
{
    put_either(out, raw, 22, b"s", b"u");
    put_either(out, raw, 21, b"mlal", b"mull");
    put_mark(out, raw, 20, b's');
    put_cond_tab(out, raw);
    put_reg_comma(out, raw, 12, 16);
    put_reg_comma(out, raw, 16, 20);
    put_reg_comma(out, raw, 0, 4);
    put_reg_at(out, raw, 8, 12)
}

// The halfword transfers.
#[inline(always)]
fn fmt_halfword(out: &mut Writer<'_>, form: Form, pc: u32, raw: u32, offset: BarrelShifterValue)
    ensures { out.new ≡ puts out.old (fmt_halfword form pc raw offset) }
{
    let transfer_type = halfword_data_transfer_type(raw);
    put_either(out, raw, 20, b"ldr", b"str");
    put_halfword_type(out, transfer_type);
    put_cond_tab(out, raw);
    put_reg_comma(out, raw, 12, 16);
    fmt_rn_offset(out, form, pc, raw, offset);
}

pub fn fmt_ldr_str_hs_imm_offset(out: &mut Writer<'_>, form: Form, pc: u32, raw: u32)
    ensures { out.new ≡ puts out.old (fmt_ldr_str_hs_imm_offset form pc raw) }
{
    fmt_halfword(out, form, pc, raw, ldr_str_hs_imm_offset(raw));
}

pub fn fmt_ldr_str_hs_reg_offset(out: &mut Writer<'_>, form: Form, pc: u32, raw: u32)
    ensures { out.new ≡ puts out.old (fmt_ldr_str_hs_reg_offset form pc raw) }
{
    fmt_halfword(out, form, pc, raw, ldr_str_hs_reg_offset(raw));
}

pub fn fmt_swi(out: &mut Writer<'_>, raw: u32)
    ensures { out.new ≡ puts out.old (fmt_swi raw) }
{
    out.put_text(b"swi");
    put_cond_at(out, raw, 28, 32);
    out.put_text(b"\t#");
    out.put_0x(1, swi_comment(raw));
}

pub fn fmt_swp(out: &mut Writer<'_>, raw: u32)
    ensures { out.new ≡ puts out.old (fmt_swp raw) }
{
    out.put_text(b"swp");
    put_mark(out, raw, 22, b'b');
    put_cond_tab(out, raw);
    put_reg_comma(out, raw, 12, 16);
    put_reg_at(out, raw, 0, 4);
    out.put_text(b", [");
    put_reg_at(out, raw, 16, 20);
    out.put_byte(b']');
}
