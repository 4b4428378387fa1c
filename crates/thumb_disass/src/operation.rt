// The names of operations: the `Display` of the Rust's operations, and the `Debug` of its shifts.
ghost use Rattle.std.specs.Prelude.{◌≡◌};
ghost use Rattle.text.specs.Puts.{puts};
ghost use Rattle.thumb_disass.specs.Line.{shift_text, op3_text, op5_text, alu_op_text, shb_text};

use arm7tdmi::alu::BarrelShiftOpCode;
use arm7tdmi::bit::bit;
use lines::put_either;
use text::put::Writer;
use thumb::{OpFormat3, OpFormat5, ThumbAluOps};

// In capitals, as the Rust prints them here.
pub fn put_shift(out: &mut Writer<'_>, op: BarrelShiftOpCode)
    ensures { out.new ≡ puts out.old (shift_text op) }
{
    match op {
        BarrelShiftOpCode::LSL => out.put_text(b"LSL"),
        BarrelShiftOpCode::LSR => out.put_text(b"LSR"),
        BarrelShiftOpCode::ASR => out.put_text(b"ASR"),
        BarrelShiftOpCode::ROR => out.put_text(b"ROR"),
    }
}

pub fn put_op3(out: &mut Writer<'_>, op: OpFormat3)
    ensures { out.new ≡ puts out.old (op3_text op) }
{
    match op {
        OpFormat3::MOV => out.put_text(b"mov"),
        OpFormat3::CMP => out.put_text(b"cmp"),
        OpFormat3::ADD => out.put_text(b"add"),
        OpFormat3::SUB => out.put_text(b"sub"),
    }
}

pub fn put_op5(out: &mut Writer<'_>, op: OpFormat5)
    ensures { out.new ≡ puts out.old (op5_text op) }
{
    match op {
        OpFormat5::ADD => out.put_text(b"add"),
        OpFormat5::CMP => out.put_text(b"cmp"),
        OpFormat5::MOV => out.put_text(b"mov"),
        OpFormat5::BX => out.put_text(b"bx"),
    }
}

pub fn put_alu_op(out: &mut Writer<'_>, op: ThumbAluOps)
    ensures { out.new ≡ puts out.old (alu_op_text op) }
{
    match op {
        ThumbAluOps::AND => out.put_text(b"and"),
        ThumbAluOps::EOR => out.put_text(b"eor"),
        ThumbAluOps::LSL => out.put_text(b"lsl"),
        ThumbAluOps::LSR => out.put_text(b"lsr"),
        ThumbAluOps::ASR => out.put_text(b"asr"),
        ThumbAluOps::ADC => out.put_text(b"adc"),
        ThumbAluOps::SBC => out.put_text(b"sbc"),
        ThumbAluOps::ROR => out.put_text(b"ror"),
        ThumbAluOps::TST => out.put_text(b"tst"),
        ThumbAluOps::NEG => out.put_text(b"neg"),
        ThumbAluOps::CMP => out.put_text(b"cmp"),
        ThumbAluOps::CMN => out.put_text(b"cmn"),
        ThumbAluOps::ORR => out.put_text(b"orr"),
        ThumbAluOps::MUL => out.put_text(b"mul"),
        ThumbAluOps::BIC => out.put_text(b"bic"),
        ThumbAluOps::MVN => out.put_text(b"mvn"),
    }
}

// The transfers of halfwords and signed bytes.
pub fn put_shb(out: &mut Writer<'_>, raw: u32)
    ensures { out.new ≡ puts out.old (shb_text raw) }
{
    if bit(raw, 10) {
        put_either(out, raw, 11, b"ldsh", b"ldsb");
    } else {
        put_either(out, raw, 11, b"ldrh", b"strh");
    }
}
