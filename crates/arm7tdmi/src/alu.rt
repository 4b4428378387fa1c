// Opcodes, shifts and operands.
ghost use Rattle.std.specs.Prelude.{◌≡◌};
ghost use Rattle.arm7tdmi.specs.Alu.{alu_op_code, alu_number, is_setting_flags, is_move, barrel_shift_op_code, barrel_shift_number, amount_of_zero, sheet_amount, amount_of, places, rotate_right, decode_rotated_immediate};

use crate::Form;

#[derive(Clone, Copy, Debug, PartialEq, Eq)]
pub enum AluOpCode {
    AND,
    EOR,
    SUB,
    RSB,
    ADD,
    ADC,
    SBC,
    RSC,
    TST,
    TEQ,
    CMP,
    CMN,
    ORR,
    MOV,
    BIC,
    MVN,
}

// The opcode of a number, by its lowest four bits. Each such enum has a conversion of its own, as it names its own values.
#[tactic(auto, unfolding(crate::specs::Alu::alu_op_code))]
impl From<u32> for AluOpCode {
    ghost from_gives = { λ n x. x ≡ alu_op_code n };

    fn from(n: u32) -> Self {
        match n % 16 {
            0 => AluOpCode::AND,
            1 => AluOpCode::EOR,
            2 => AluOpCode::SUB,
            3 => AluOpCode::RSB,
            4 => AluOpCode::ADD,
            5 => AluOpCode::ADC,
            6 => AluOpCode::SBC,
            7 => AluOpCode::RSC,
            8 => AluOpCode::TST,
            9 => AluOpCode::TEQ,
            10 => AluOpCode::CMP,
            11 => AluOpCode::CMN,
            12 => AluOpCode::ORR,
            13 => AluOpCode::MOV,
            14 => AluOpCode::BIC,
            _ => AluOpCode::MVN,
        }
    }
}

// An opcode's number, in the order of the enum.
impl From<AluOpCode> for u32 {
    ghost from_gives = { λ x n. n ≡ alu_number x };

    fn from(x: AluOpCode) -> u32 {
        x as u32
    }
}

impl AluOpCode {
    // Whether it has no result but the flags.
    pub fn is_setting_flags(self) -> bool
        ensures { result ≡ is_setting_flags self }
    {
        matches!(
            self,
            AluOpCode::TST | AluOpCode::TEQ | AluOpCode::CMP | AluOpCode::CMN
        )
    }

    // Whether it has a result and no first operand.
    pub fn is_move(self) -> bool
        ensures { result ≡ is_move self }
    {
        matches!(self, AluOpCode::MOV | AluOpCode::MVN)
    }
}

#[derive(Clone, Copy, Debug, PartialEq, Eq)]
pub enum BarrelShiftOpCode {
    LSL,
    LSR,
    ASR,
    ROR,
}

// The shift of a number, by its lowest two bits.
#[tactic(auto, unfolding(crate::specs::Alu::barrel_shift_op_code))]
impl From<u32> for BarrelShiftOpCode {
    ghost from_gives = { λ n x. x ≡ barrel_shift_op_code n };

    fn from(n: u32) -> Self {
        match n % 4 {
            0 => BarrelShiftOpCode::LSL,
            1 => BarrelShiftOpCode::LSR,
            2 => BarrelShiftOpCode::ASR,
            _ => BarrelShiftOpCode::ROR,
        }
    }
}

// A shift's number, in the order of the enum.
impl From<BarrelShiftOpCode> for u32 {
    ghost from_gives = { λ x n. n ≡ barrel_shift_number x };

    fn from(x: BarrelShiftOpCode) -> u32 {
        x as u32
    }
}

impl BarrelShiftOpCode {
    // What an amount of 0 means by the data sheet.
    fn amount_of_zero(self) -> Amount
        ensures { result ≡ amount_of_zero self }
    {
        match self {
            BarrelShiftOpCode::LSL => Amount::Places(0),
            BarrelShiftOpCode::LSR | BarrelShiftOpCode::ASR => Amount::Places(32),
            BarrelShiftOpCode::ROR => Amount::Rrx,
        }
    }

    #[tactic(auto, unfolding(crate::specs::Alu::sheet_amount))]
    fn sheet_amount(self, n: u32) -> Amount
        ensures { result ≡ sheet_amount self n }
    {
        if n == 0 {
            return self.amount_of_zero();
        }
        Amount::Places(n)
    }

    // S10: what the immediate amount n means; the bench has the field's value.
    #[tactic(auto, unfolding(crate::specs::Alu::amount_of))]
    pub fn amount(self, form: Form, n: u32) -> Amount
        ensures { result ≡ amount_of form self n }
    {
        match form {
            Form::Bench => Amount::Places(n),
            Form::Sheet => self.sheet_amount(n),
        }
    }
}

// What the immediate amount of a shift means: so many places, or that the shift is RRX. No `Option`, since RRX is a shift of its own and not the lack
// of an amount.
#[derive(Clone, Copy, Debug, PartialEq, Eq)]
pub enum Amount {
    Places(u32),
    Rrx,
}

impl Amount {
    // By how many places; RRX states none.
    pub fn places(self) -> u32
        ensures { result ≡ places self }
    {
        match self {
            Amount::Places(n) => n,
            Amount::Rrx => 0,
        }
    }
}

#[derive(Clone, Copy, Debug, PartialEq, Eq)]
pub enum ShiftRegisterBy {
    ByAmount(u32),
    ByRegister(u32),
}

// A shifted register; as an offset it says whether it is added to the base or subtracted from it.
#[derive(Clone, Copy, Debug, PartialEq, Eq)]
pub struct ShiftedRegister {
    pub reg: u32,
    pub shift_by: ShiftRegisterBy,
    pub bs_op: BarrelShiftOpCode,
    pub added: Option<bool>,
}

#[derive(Clone, Copy, Debug, PartialEq, Eq)]
pub enum BarrelShifterValue {
    ImmediateValue(u32),
    RotatedImmediate(u32, u32),
    ShiftedRegister(ShiftedRegister),
}

// A word turned right by n places: std's method, with its `|` and `<<` said as a sum.
#[tactic(auto, using(crate::proofs::Rotate::turned_or), unfolding(crate::specs::Alu::rotate_right))]
pub fn rotate_right(v: u32, n: u32) -> u32
    ensures { result ≡ rotate_right v n }
{
    v.rotate_right(n)
}

impl BarrelShifterValue {
    // What a value comes to where it is a rotated immediate.
    #[tactic(auto, unfolding(crate::specs::Alu::decode_rotated_immediate))]
    pub fn decode_rotated_immediate(self) -> Option<u32>
        ensures { result ≡ decode_rotated_immediate self }
    {
        match self {
            BarrelShifterValue::RotatedImmediate(immediate, rotate) => {
                Some(rotate_right(immediate, rotate))
            }
            _ => None,
        }
    }
}
