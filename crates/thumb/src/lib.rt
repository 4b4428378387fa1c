// Thumb words: their kinds and their fields, as in the Rust's thumb/mod.rs.
#![tactic(auto)]

ghost use Rattle.std.specs.Prelude.{◌≡◌};
ghost use Rattle.common.specs.Bits.{bit, bit_range};
ghost use Rattle.arm7tdmi.specs.Alu.{barrel_shift_op_code};
ghost use Rattle.arm7tdmi.specs.Cond.{arm_cond};
ghost use Rattle.thumb.specs.Kinds.{trap_format, thumb_rows, thumb_format, thumb_number};
ghost use Rattle.thumb.specs.Fields.{op_format3, op_format5, thumb_alu_op, thumb_alu_number, bcond_offset, branch_offset11, call_offset, bcond_target, branch_target, pc_load_address, call_half, word8, sword7};
ghost use Rattle.thumb.specs.Pair.{is_first_half, is_second_half, is_pair, pair_target};
ghost use Rattle.thumb.specs.Record.{byte_length, decoded, halfwords_of, leading};
ghost use Rattle.thumb.specs.declared.Halfwords.TheVariants.{One};

use arm7tdmi::Form;
use arm7tdmi::alu::BarrelShiftOpCode;
use arm7tdmi::bit::{bit, bit_range};
use arm7tdmi::cond::ArmCond;
use arm7tdmi::kinds::{Row, first_match};
use arm7tdmi::memory::{Addr, move_by};

// The kinds of Thumb words.
#[derive(Clone, Copy, Debug, PartialEq, Eq)]
pub enum ThumbFormat {
    MoveShiftedReg,
    AddSub,
    DataProcessImm,
    AluOps,
    HiRegOpOrBranchExchange,
    LdrPc,
    LdrStrRegOffset,
    LdrStrSHB,
    LdrStrImmOffset,
    LdrStrHalfWord,
    LdrStrSp,
    LoadAddress,
    AddSp,
    PushPop,
    LdmStm,
    BranchConditional,
    Swi,
    Branch,
    BranchLongWithLink,
    Undefined,
}

// A kind's number, in the order of the enum.
impl From<ThumbFormat> for u32 {
    ghost from_gives = { λ fmt n. n ≡ thumb_number fmt };

    fn from(fmt: ThumbFormat) -> u32 {
        fmt as u32
    }
}

// The kind of DExx.
fn trap_format(form: Form) -> ThumbFormat
    ensures { result ≡ trap_format form }
{
    match form {
        Form::Bench => ThumbFormat::BranchConditional,
        Form::Sheet => ThumbFormat::Undefined,
    }
}

// The rows of a form, in the order in which they are tried: the Rust's, and one for DExx.
#[tactic(auto, unfolding(crate::specs::Kinds::thumb_rows))]
fn thumb_rows(form: Form) -> [Row<ThumbFormat>; 20]
    ensures { result ≡ thumb_rows form }
{
    [
        Row::new(0xf800, 0x1800, ThumbFormat::AddSub),
        Row::new(0xe000, 0x0000, ThumbFormat::MoveShiftedReg),
        Row::new(0xe000, 0x2000, ThumbFormat::DataProcessImm),
        Row::new(0xfc00, 0x4000, ThumbFormat::AluOps),
        Row::new(0xfc00, 0x4400, ThumbFormat::HiRegOpOrBranchExchange),
        Row::new(0xf800, 0x4800, ThumbFormat::LdrPc),
        Row::new(0xf200, 0x5000, ThumbFormat::LdrStrRegOffset),
        Row::new(0xf200, 0x5200, ThumbFormat::LdrStrSHB),
        Row::new(0xe000, 0x6000, ThumbFormat::LdrStrImmOffset),
        Row::new(0xf000, 0x8000, ThumbFormat::LdrStrHalfWord),
        Row::new(0xf000, 0x9000, ThumbFormat::LdrStrSp),
        Row::new(0xf000, 0xa000, ThumbFormat::LoadAddress),
        Row::new(0xff00, 0xb000, ThumbFormat::AddSp),
        Row::new(0xf600, 0xb400, ThumbFormat::PushPop),
        Row::new(0xf000, 0xc000, ThumbFormat::LdmStm),
        Row::new(0xff00, 0xdf00, ThumbFormat::Swi),
        Row::new(0xff00, 0xde00, trap_format(form)),
        Row::new(0xf000, 0xd000, ThumbFormat::BranchConditional),
        Row::new(0xf800, 0xe000, ThumbFormat::Branch),
        Row::new(0xf000, 0xf000, ThumbFormat::BranchLongWithLink),
    ]
}

// The kind of a word, as ARM's `arm_format` has it over rows of its own.
pub fn thumb_format(form: Form, raw: u16) -> ThumbFormat
    ensures { result ≡ thumb_format form raw }
{
    first_match(thumb_rows(form), raw as u32, ThumbFormat::Undefined)
}

// Whether a halfword is the first half of a call, by its top bits.
#[tactic(auto, unfolding(crate::specs::Pair::is_first_half))]
pub fn is_first_half(h: u16) -> bool
    ensures { result ≡ is_first_half h }
{
    bit_range(h as u32, 11, 16) == 0b11110
}

// Whether a halfword is the second half of a call. Like a first half, but for one bit: each is one test of a field.
#[tactic(auto, unfolding(crate::specs::Pair::is_second_half))]
pub fn is_second_half(h: u16) -> bool
    ensures { result ≡ is_second_half h }
{
    bit_range(h as u32, 11, 16) == 0b11111
}

// Whether two halfwords are a call: a first half and then a second.
#[tactic(auto, unfolding(crate::specs::Pair::is_pair))]
pub fn is_pair(first: u16, second: u16) -> bool
    ensures { result ≡ is_pair first second }
{
    is_first_half(first) && is_second_half(second)
}

// The halfwords of a decoded word: one, or the two of a call.
#[derive(Clone, Copy, Debug, PartialEq, Eq)]
pub enum Halfwords {
    One(u16),
    Two(u16, u16),
}

impl Halfwords {
    // Of two halfwords: both, if they are a pair, and else the first alone.
    #[tactic(auto, unfolding(crate::specs::Record::halfwords_of))]
    fn of_two(first: u16, second: u16) -> Self
        ensures { result ≡ halfwords_of first second }
    {
        if is_pair(first, second) {
            return Halfwords::Two(first, second);
        }
        Halfwords::One(first)
    }

    // The halfword that tells the kind: both of a pair tell the same.
    fn leading(self) -> u16
        ensures { result ≡ leading self }
    {
        match self {
            Halfwords::One(h) => h,
            Halfwords::Two(first, _) => first,
        }
    }

    // How many bytes they take.
    fn byte_length(self) -> u32
        ensures { result ≡ byte_length self }
    {
        match self {
            Halfwords::One(_) => 2,
            Halfwords::Two(_, _) => 4,
        }
    }
}

// A decoded word. Kind and word are other types in arm, and a struct of both sets could have no functions of its own here, as in the Rust.
#[derive(Clone, Copy, Debug, PartialEq, Eq)]
pub struct ThumbInstruction {
    pub fmt: ThumbFormat,
    pub raw: Halfwords,
    pub pc: Addr,
    pub byte_length: u32,
}

impl ThumbInstruction {
    // The record of the halfwords of a word.
    #[tactic(auto, unfolding(crate::specs::Record::decoded))]
    fn of_halfwords(form: Form, raw: Halfwords, addr: Addr) -> Self
        ensures { result ≡ decoded form raw addr }
    {
        ThumbInstruction {
            fmt: thumb_format(form, raw.leading()),
            raw,
            pc: addr,
            byte_length: raw.byte_length(),
        }
    }

    // Decodes a halfword by itself.
    pub fn decode(form: Form, raw: u16, addr: Addr) -> Self
        ensures { result ≡ decoded form (One raw) addr }
    {
        ThumbInstruction::of_halfwords(form, Halfwords::One(raw), addr)
    }

    // Decodes two halfwords: a pair, or the first of them alone.
    pub fn decode_pair(form: Form, first: u16, second: u16, addr: Addr) -> Self
        ensures { result ≡ decoded form (halfwords_of first second) addr }
    {
        ThumbInstruction::of_halfwords(form, Halfwords::of_two(first, second), addr)
    }
}

#[derive(Clone, Copy, Debug, PartialEq, Eq)]
pub enum OpFormat3 {
    MOV,
    CMP,
    ADD,
    SUB,
}

// The operation of a number, by its lowest two bits. This and the two like it name the values of their own enums.
#[tactic(auto, unfolding(crate::specs::Fields::op_format3))]
impl From<u32> for OpFormat3 {
    ghost from_gives = { λ n x. x ≡ op_format3 n };

    fn from(n: u32) -> Self {
        match n % 4 {
            0 => OpFormat3::MOV,
            1 => OpFormat3::CMP,
            2 => OpFormat3::ADD,
            _ => OpFormat3::SUB,
        }
    }
}

#[derive(Clone, Copy, Debug, PartialEq, Eq)]
pub enum OpFormat5 {
    ADD,
    CMP,
    MOV,
    BX,
}

// The operation of a number, by its lowest two bits.
#[tactic(auto, unfolding(crate::specs::Fields::op_format5))]
impl From<u32> for OpFormat5 {
    ghost from_gives = { λ n x. x ≡ op_format5 n };

    fn from(n: u32) -> Self {
        match n % 4 {
            0 => OpFormat5::ADD,
            1 => OpFormat5::CMP,
            2 => OpFormat5::MOV,
            _ => OpFormat5::BX,
        }
    }
}

#[derive(Clone, Copy, Debug, PartialEq, Eq)]
pub enum ThumbAluOps {
    AND,
    EOR,
    LSL,
    LSR,
    ASR,
    ADC,
    SBC,
    ROR,
    TST,
    NEG,
    CMP,
    CMN,
    ORR,
    MUL,
    BIC,
    MVN,
}

// The operation of a number, by its lowest four bits.
#[tactic(auto, unfolding(crate::specs::Fields::thumb_alu_op))]
impl From<u32> for ThumbAluOps {
    ghost from_gives = { λ n x. x ≡ thumb_alu_op n };

    fn from(n: u32) -> Self {
        match n % 16 {
            0 => ThumbAluOps::AND,
            1 => ThumbAluOps::EOR,
            2 => ThumbAluOps::LSL,
            3 => ThumbAluOps::LSR,
            4 => ThumbAluOps::ASR,
            5 => ThumbAluOps::ADC,
            6 => ThumbAluOps::SBC,
            7 => ThumbAluOps::ROR,
            8 => ThumbAluOps::TST,
            9 => ThumbAluOps::NEG,
            10 => ThumbAluOps::CMP,
            11 => ThumbAluOps::CMN,
            12 => ThumbAluOps::ORR,
            13 => ThumbAluOps::MUL,
            14 => ThumbAluOps::BIC,
            _ => ThumbAluOps::MVN,
        }
    }
}

// An operation's number, in the order of the enum.
impl From<ThumbAluOps> for u32 {
    ghost from_gives = { λ x n. n ≡ thumb_alu_number x };

    fn from(x: ThumbAluOps) -> u32 {
        x as u32
    }
}

// Fields, under the Rust's names. Where it has two for the same bits, one function has both. A word of 16 bits is a number of 32 here.
pub use crate::{ro as rn, rs as rb};

pub fn rs(raw: u32) -> u32
    ensures { result ≡ bit_range raw 3 6 }
{
    bit_range(raw, 3, 6)
}

pub fn ro(raw: u32) -> u32
    ensures { result ≡ bit_range raw 6 9 }
{
    bit_range(raw, 6, 9)
}

pub fn offset5(raw: u32) -> u32
    ensures { result ≡ bit_range raw 6 11 }
{
    bit_range(raw, 6, 11)
}

pub fn offset11(raw: u32) -> u32
    ensures { result ≡ bit_range raw 0 11 }
{
    bit_range(raw, 0, 11)
}

pub fn register_list(raw: u32) -> u32
    ensures { result ≡ bit_range raw 0 8 }
{
    bit_range(raw, 0, 8)
}

pub fn is_load(raw: u32) -> bool
    ensures { result ≡ bit raw 11 }
{
    bit(raw, 11)
}

pub fn is_subtract(raw: u32) -> bool
    ensures { result ≡ bit raw 9 }
{
    bit(raw, 9)
}

pub fn is_immediate_operand(raw: u32) -> bool
    ensures { result ≡ bit raw 10 }
{
    bit(raw, 10)
}

pub fn format1_op(raw: u32) -> BarrelShiftOpCode
    ensures { result ≡ barrel_shift_op_code (bit_range raw 11 13) }
{
    BarrelShiftOpCode::from(bit_range(raw, 11, 13))
}

pub fn format3_op(raw: u32) -> OpFormat3
    ensures { result ≡ op_format3 (bit_range raw 11 13) }
{
    OpFormat3::from(bit_range(raw, 11, 13))
}

pub fn format5_op(raw: u32) -> OpFormat5
    ensures { result ≡ op_format5 (bit_range raw 8 10) }
{
    OpFormat5::from(bit_range(raw, 8, 10))
}

pub fn format4_alu_op(raw: u32) -> ThumbAluOps
    ensures { result ≡ thumb_alu_op (bit_range raw 6 10) }
{
    ThumbAluOps::from(bit_range(raw, 6, 10))
}

pub fn cond(raw: u32) -> ArmCond
    ensures { result ≡ arm_cond (bit_range raw 8 12) }
{
    ArmCond::from(bit_range(raw, 8, 12))
}

// The sign-extended 8-bit field times two: its sign goes to the top, and the shift back keeps it. This and the next two are one expression each, as ARM's.
pub fn bcond_offset(raw: u32) -> i32
    ensures { result ≡ bcond_offset raw }
{
    (raw << 24).cast_signed() >> 23
}

// The sign-extended 11-bit field times two.
pub fn branch_offset(raw: u32) -> i32
    ensures { result ≡ branch_offset11 raw }
{
    (raw << 21).cast_signed() >> 20
}

// The sign-extended 11-bit field of a first call half times 4096.
pub fn call_offset(raw: u32) -> i32
    ensures { result ≡ call_offset raw }
{
    (raw << 21).cast_signed() >> 9
}

// Four times the lowest eight bits.
#[tactic(auto, unfolding(crate::specs::Fields::word8))]
pub fn word8(raw: u32) -> u32
    ensures { result ≡ word8 raw }
{
    bit_range(raw, 0, 8) * 4
}

// Four times the lowest seven bits, with bit 7 as the sign.
#[tactic(auto, unfolding(crate::specs::Fields::sword7))]
pub fn sword7(raw: u32) -> i32
    ensures { result ≡ sword7 raw }
{
    let size = bit_range(raw, 0, 7) * 4;
    if bit(raw, 7) {
        -(size as i32)
    } else {
        size as i32
    }
}

// Where a conditional branch at an address goes. Like a branch, but for the field: both are one call of `move_by`.
pub fn bcond_target(pc: Addr, raw: u32) -> Addr
    ensures { result ≡ bcond_target pc raw }
{
    move_by(pc.wrapping_add(4), bcond_offset(raw))
}

// Where a branch at an address goes.
pub fn branch_target(pc: Addr, raw: u32) -> Addr
    ensures { result ≡ branch_target pc raw }
{
    move_by(pc.wrapping_add(4), branch_offset(raw))
}

// Where a call pair at an address goes.
pub fn pair_target(pc: Addr, first: u32, second: u32) -> Addr
    ensures { result ≡ pair_target pc first second }
{
    let behind = pc.wrapping_add(4);
    let high = move_by(behind, call_offset(first));
    high.wrapping_add(offset11(second) * 2)
}

// The address that a load from pc reads.
#[tactic(auto, unfolding(crate::specs::Fields::pc_load_address))]
pub fn pc_load_address(pc: Addr, raw: u32) -> Addr
    ensures { result ≡ pc_load_address pc raw }
{
    let ahead = pc.wrapping_add(4);
    let aligned = ahead - ahead / 2 % 2 * 2;
    aligned.wrapping_add(word8(raw))
}

// The number that a lone call half prints: a first half's offset as 32 bits, or twice a second half's field.
pub fn call_half(raw: u32) -> u32
    ensures { result ≡ call_half raw }
{
    if bit(raw, 11) {
        return offset11(raw) * 2;
    }
    move_by(0, call_offset(raw))
}
