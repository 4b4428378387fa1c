// ARM words: their kinds and their fields, as in the Rust's arm/mod.rs.
#![tactic(auto)]

ghost use Rattle.std.specs.Prelude.{◌≡◌, cond as boolCond};
ghost use Rattle.arm.specs.Kinds.{undefined_bits, arm_rows, arm_format, arm_number};
ghost use Rattle.common.specs.Bits.{bit, bit_range};
ghost use Rattle.arm7tdmi.specs.Alu.{alu_op_code};
ghost use Rattle.arm7tdmi.specs.Cond.{arm_cond};
ghost use Rattle.arm.specs.Fields.{halfword_type, branch_offset, branch_target, pc_relative, bs_op, shift_reg_by, operand2, signed_offset, ldr_str_offset, ldr_str_hs_imm_offset, ldr_str_hs_reg_offset};

use arm7tdmi::Form;
use arm7tdmi::alu::{
    AluOpCode, BarrelShiftOpCode, BarrelShifterValue, ShiftRegisterBy, ShiftedRegister,
};
use arm7tdmi::bit::{bit, bit_range};
use arm7tdmi::cond::ArmCond;
use arm7tdmi::kinds::{Row, first_match};
use arm7tdmi::memory::{Addr, move_by};

// The kinds of ARM words.
#[derive(Clone, Copy, Debug, PartialEq, Eq)]
pub enum ArmFormat {
    BranchExchange,
    BranchLink,
    SoftwareInterrupt,
    Multiply,
    MultiplyLong,
    SingleDataTransfer,
    HalfwordDataTransferRegOffset,
    HalfwordDataTransferImmediateOffset,
    DataProcessing,
    BlockDataTransfer,
    SingleDataSwap,
    MoveFromStatus,
    MoveToStatus,
    MoveToFlags,
    Undefined,
}

// A kind's number, in the order of the enum.
impl From<ArmFormat> for u32 {
    ghost from_gives = { λ fmt n. n ≡ arm_number fmt };

    fn from(fmt: ArmFormat) -> u32 {
        fmt as u32
    }
}

// Bits 27-25 equal to 011: the value under which bit 4 makes a word undefined.
pub fn undefined_bits(form: Form) -> u32
    ensures { result ≡ undefined_bits form }
{
    match form {
        Form::Bench => 0x0600_0000,
        Form::Sheet => 0x0600_0010,
    }
}

// The rows of a form, in the order in which they are tried.
#[tactic(auto, unfolding(crate::specs::Kinds::arm_rows))]
fn arm_rows(form: Form) -> [Row<ArmFormat>; 15]
    ensures { result ≡ arm_rows form }
{
    [
        Row::new(0x0fff_fff0, 0x012f_ff10, ArmFormat::BranchExchange),
        Row::new(0x0e00_0000, 0x0a00_0000, ArmFormat::BranchLink),
        Row::new(0x0e00_0010, undefined_bits(form), ArmFormat::Undefined),
        Row::new(0x0fb0_0ff0, 0x0100_0090, ArmFormat::SingleDataSwap),
        Row::new(0x0fc0_00f0, 0x0000_0090, ArmFormat::Multiply),
        Row::new(0x0f80_00f0, 0x0080_0090, ArmFormat::MultiplyLong),
        Row::new(0x0fbf_0fff, 0x010f_0000, ArmFormat::MoveFromStatus),
        Row::new(0x0fbf_fff0, 0x0129_f000, ArmFormat::MoveToStatus),
        Row::new(0x0dbf_f000, 0x0128_f000, ArmFormat::MoveToFlags),
        Row::new(0x0c00_0000, 0x0400_0000, ArmFormat::SingleDataTransfer),
        Row::new(
            0x0e40_0f90,
            0x0000_0090,
            ArmFormat::HalfwordDataTransferRegOffset,
        ),
        Row::new(
            0x0e40_0090,
            0x0040_0090,
            ArmFormat::HalfwordDataTransferImmediateOffset,
        ),
        Row::new(0x0e00_0000, 0x0800_0000, ArmFormat::BlockDataTransfer),
        Row::new(0x0f00_0000, 0x0f00_0000, ArmFormat::SoftwareInterrupt),
        Row::new(0x0c00_0000, 0x0000_0000, ArmFormat::DataProcessing),
    ]
}

// The kind of a word. Rows, kinds and the words are other types in each set, so `thumb_format` is not this function; what they share is `first_match`.
// Not inlined: within the print it takes longer.
#[inline(never)]
pub fn arm_format(form: Form, raw: u32) -> ArmFormat
    ensures { result ≡ arm_format form raw }
{
    first_match(arm_rows(form), raw, ArmFormat::Undefined)
}

// A decoded word. Kind and word are other types in thumb, and a struct of both sets could have no functions of its own here, as in the Rust.
#[derive(Clone, Copy, Debug, PartialEq, Eq)]
pub struct ArmInstruction {
    pub fmt: ArmFormat,
    pub raw: u32,
    pub pc: Addr,
    pub byte_length: u32,
}

impl ArmInstruction {
    pub fn decode(form: Form, raw: u32, addr: Addr) -> Self
        ensures { result ≡ record { fmt = arm_format form raw; raw = raw; pc = addr; byte_length = 4 } }
    {
        ArmInstruction {
            fmt: arm_format(form, raw),
            raw,
            pc: addr,
            byte_length: 4,
        }
    }
}

// Fields, under the Rust's names. Where it has several for the same bits, one function has them all.
pub use crate::{
    load_flag as set_cond_flag, pre_index_flag as link_flag, u_flag as psr_and_force_user_flag,
    u_flag as spsr_flag, write_back_flag as accumulate_flag,
};

pub fn cond(raw: u32) -> ArmCond
    ensures { result ≡ arm_cond (bit_range raw 28 32) }
{
    ArmCond::from(bit_range(raw, 28, 32))
}

pub fn opcode(raw: u32) -> AluOpCode
    ensures { result ≡ alu_op_code (bit_range raw 21 25) }
{
    AluOpCode::from(bit_range(raw, 21, 25))
}

pub fn rm(raw: u32) -> u32
    ensures { result ≡ bit_range raw 0 4 }
{
    bit_range(raw, 0, 4)
}

pub fn rs(raw: u32) -> u32
    ensures { result ≡ bit_range raw 8 12 }
{
    bit_range(raw, 8, 12)
}

pub fn rd_lo(raw: u32) -> u32
    ensures { result ≡ bit_range raw 12 16 }
{
    bit_range(raw, 12, 16)
}

pub fn rd_hi(raw: u32) -> u32
    ensures { result ≡ bit_range raw 16 20 }
{
    bit_range(raw, 16, 20)
}

pub fn load_flag(raw: u32) -> bool
    ensures { result ≡ bit raw 20 }
{
    bit(raw, 20)
}

pub fn write_back_flag(raw: u32) -> bool
    ensures { result ≡ bit raw 21 }
{
    bit(raw, 21)
}

pub fn u_flag(raw: u32) -> bool
    ensures { result ≡ bit raw 22 }
{
    bit(raw, 22)
}

pub fn add_offset_flag(raw: u32) -> bool
    ensures { result ≡ bit raw 23 }
{
    bit(raw, 23)
}

pub fn pre_index_flag(raw: u32) -> bool
    ensures { result ≡ bit raw 24 }
{
    bit(raw, 24)
}

// The size of a transfer in bytes, by bit 22.
pub fn transfer_size(raw: u32) -> u32
    ensures { result ≡ boolCond (bit raw 22) 1 4 }
{
    if bit(raw, 22) {
        return 1;
    }
    4
}

#[derive(Clone, Copy, Debug, PartialEq, Eq)]
pub enum ArmHalfwordTransferType {
    UnsignedHalfwords,
    SignedByte,
    SignedHalfwords,
}

// The type of a halfword transfer, if it has one.
#[tactic(auto, unfolding(crate::specs::Fields::halfword_type))]
pub fn halfword_data_transfer_type(raw: u32) -> Option<ArmHalfwordTransferType>
    ensures { result ≡ halfword_type raw }
{
    match bit_range(raw, 5, 7) {
        1 => Some(ArmHalfwordTransferType::UnsignedHalfwords),
        2 => Some(ArmHalfwordTransferType::SignedByte),
        3 => Some(ArmHalfwordTransferType::SignedHalfwords),
        _ => None,
    }
}

// The sign-extended 24-bit field times four: its sign goes to the top, and the shift back keeps it. Thumb has three more such offsets: a function of all would
// take the shifts, and would ask that they are below 32.
pub fn branch_offset(raw: u32) -> i32
    ensures { result ≡ branch_offset raw }
{
    (raw << 8).cast_signed() >> 6
}

// Where a branch at an address goes.
pub fn branch_target(pc: Addr, raw: u32) -> Addr
    ensures { result ≡ branch_target pc raw }
{
    move_by(pc.wrapping_add(8), branch_offset(raw))
}

// Where an offset from the pc of an instruction at an address points.
#[tactic(auto, unfolding(crate::specs::Fields::pc_relative))]
pub fn pc_relative(pc: Addr, n: u32) -> Addr
    ensures { result ≡ pc_relative pc n }
{
    pc.wrapping_add(8).wrapping_add(n)
}

#[tactic(auto, unfolding(crate::specs::Fields::bs_op))]
pub fn get_bs_op(raw: u32) -> BarrelShiftOpCode
    ensures { result ≡ bs_op raw }
{
    BarrelShiftOpCode::from(bit_range(raw, 5, 7))
}

#[tactic(auto, unfolding(crate::specs::Fields::shift_reg_by))]
pub fn get_shift_reg_by(raw: u32) -> ShiftRegisterBy
    ensures { result ≡ shift_reg_by raw }
{
    if bit(raw, 4) {
        return ShiftRegisterBy::ByRegister(bit_range(raw, 8, 12));
    }
    ShiftRegisterBy::ByAmount(bit_range(raw, 7, 12))
}

fn shifted_register(raw: u32, added: Option<bool>) -> ShiftedRegister
    ensures { result ≡ record { reg = bit_range raw 0 4; shift_by = shift_reg_by raw; bs_op = bs_op raw; added = added } }
{
    ShiftedRegister {
        reg: bit_range(raw, 0, 4),
        shift_by: get_shift_reg_by(raw),
        bs_op: get_bs_op(raw),
        added,
    }
}

// An immediate offset as a number of 32 bits: with U clear, its negative.
#[tactic(auto, unfolding(crate::specs::Fields::signed_offset))]
fn signed_offset(raw: u32, n: u32) -> u32
    ensures { result ≡ signed_offset raw n }
{
    if bit(raw, 23) {
        return n;
    }
    0u32.wrapping_sub(n)
}

// The offset of a transfer.
#[tactic(auto, unfolding(crate::specs::Fields::ldr_str_offset, crate::specs::Fields::added_of))]
pub fn ldr_str_offset(raw: u32) -> BarrelShifterValue
    ensures { result ≡ ldr_str_offset raw }
{
    if bit(raw, 25) {
        return BarrelShifterValue::ShiftedRegister(shifted_register(
            raw,
            Some(add_offset_flag(raw)),
        ));
    }
    BarrelShifterValue::ImmediateValue(signed_offset(raw, bit_range(raw, 0, 12)))
}

#[tactic(auto, unfolding(crate::specs::Fields::ldr_str_hs_imm_offset))]
pub fn ldr_str_hs_imm_offset(raw: u32) -> BarrelShifterValue
    ensures { result ≡ ldr_str_hs_imm_offset raw }
{
    let offset8 = bit_range(raw, 8, 12) * 16 + bit_range(raw, 0, 4);
    BarrelShifterValue::ImmediateValue(signed_offset(raw, offset8))
}

#[tactic(auto, unfolding(crate::specs::Fields::ldr_str_hs_reg_offset, crate::specs::Fields::added_of))]
pub fn ldr_str_hs_reg_offset(raw: u32) -> BarrelShifterValue
    ensures { result ≡ ldr_str_hs_reg_offset raw }
{
    let register = ShiftedRegister {
        reg: bit_range(raw, 0, 4),
        shift_by: ShiftRegisterBy::ByAmount(0),
        bs_op: BarrelShiftOpCode::LSL,
        added: Some(add_offset_flag(raw)),
    };
    BarrelShifterValue::ShiftedRegister(register)
}

// The second operand of data processing.
#[tactic(auto, unfolding(crate::specs::Fields::operand2))]
pub fn operand2(raw: u32) -> BarrelShifterValue
    ensures { result ≡ operand2 raw }
{
    if bit(raw, 25) {
        return BarrelShifterValue::RotatedImmediate(
            bit_range(raw, 0, 8),
            2 * bit_range(raw, 8, 12),
        );
    }
    BarrelShifterValue::ShiftedRegister(shifted_register(raw, None))
}

pub fn register_list(raw: u32) -> u32
    ensures { result ≡ bit_range raw 0 16 }
{
    bit_range(raw, 0, 16)
}

pub fn swi_comment(raw: u32) -> u32
    ensures { result ≡ bit_range raw 0 24 }
{
    bit_range(raw, 0, 24)
}
