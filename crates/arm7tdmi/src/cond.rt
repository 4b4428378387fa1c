// Conditions, for both sets; the Rust has them in arm/mod.rs.
ghost use Rattle.std.specs.Prelude.{◌≡◌};
ghost use Rattle.text.specs.Puts.{puts};
ghost use Rattle.arm7tdmi.specs.Cond.{arm_cond, arm_cond_number};
ghost use Rattle.arm7tdmi.specs.Names.{cond_text, cond_named};

use crate::put_letters;
use text::put::Writer;
use text::read::{index_of, pack};

// The sixteen values of the field; the last is a value like the others, as in the Rust, and what refuses it looks at the word.
#[derive(Clone, Copy, Debug, PartialEq, Eq)]
pub enum ArmCond {
    EQ,
    NE,
    HS,
    LO,
    MI,
    PL,
    VS,
    VC,
    HI,
    LS,
    GE,
    LT,
    GT,
    LE,
    AL,
    Invalid,
}

// The condition of a number, by its lowest four bits; like that of an opcode, but for the values.
#[tactic(auto, unfolding(crate::specs::Cond::arm_cond))]
impl From<u32> for ArmCond {
    ghost from_gives = { λ n x. x ≡ arm_cond n };

    fn from(n: u32) -> Self {
        match n % 16 {
            0 => ArmCond::EQ,
            1 => ArmCond::NE,
            2 => ArmCond::HS,
            3 => ArmCond::LO,
            4 => ArmCond::MI,
            5 => ArmCond::PL,
            6 => ArmCond::VS,
            7 => ArmCond::VC,
            8 => ArmCond::HI,
            9 => ArmCond::LS,
            10 => ArmCond::GE,
            11 => ArmCond::LT,
            12 => ArmCond::GT,
            13 => ArmCond::LE,
            14 => ArmCond::AL,
            _ => ArmCond::Invalid,
        }
    }
}

// A condition's number, in the order of the enum.
impl From<ArmCond> for u32 {
    ghost from_gives = { λ x n. n ≡ arm_cond_number x };

    fn from(x: ArmCond) -> u32 {
        x as u32
    }
}

// The name of a condition; nothing for AL and for a number past it. The condition is a number, as a field has it: an `ArmCond` would be made of the number and be
// a number again.
#[tactic(auto, using(text::proofs::Puts::written, crate::proofs::Names::cond_none))]
pub fn put_cond(out: &mut Writer<'_>, n: u32)
    ensures { out.new ≡ puts out.old (cond_text n) }
{
    if n < 14 {
        put_letters(out, b"eqnecsccmiplvsvchilsgeltgtle", n);
    }
}

// The conditions' names, packed: few enough to be looked through.
const COND_NAMES: [u64; 15] = [
    0x7165, 0x656e, 0x7363, 0x6363, 0x696d, 0x6c70, 0x7376, 0x6376, 0x6968, 0x736c, 0x6567, 0x746c,
    0x7467, 0x656c, 0,
];

// The condition that a word names: AL of the empty word, and the last, which has no name, of a word that names none.
pub fn read_cond(s: &[u8]) -> ArmCond
    ensures { arm_cond_number result ≡ cond_named s.now }
{
    ArmCond::from(index_of(&COND_NAMES, pack(s)) as u32)
}
