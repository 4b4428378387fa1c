// Operand 2, and a shifted register as an offset.
ghost use Rattle.std.specs.Prelude.{◌≡◌, ◌≤◌, ◌<◌, ◌^◌};
ghost use Rattle.arm_candidate.specs.CandidateOperand.{is_number, shift_named, by_named, shift_of, shifted_of, immediate_of, operand_of};

use arm7tdmi::alu::rotate_right;
use arm7tdmi::read_reg;
use reading::parts::{amount_field, register};
use text::read::{first_word, index_of, item_or, next_word, pack, read_number};

// Whether a word begins with a digit, as a number does.
pub fn is_number(w: &[u8]) -> bool
    ensures { result ≡ is_number w.now }
{
    item_or(w, 0, 0) < 58
}

// The shifts' names, packed: few enough to be looked through.
const SHIFT_NAMES: [u64; 5] = [0x6c736c, 0x72736c, 0x727361, 0x726f72, 0x787272];

// The shift that a word names, 4 for rrx, or 5. A number and no enum: it is the field of the shift, and what a word that names none gives prints another line.
fn shift_named(w: &[u8]) -> u64
    ensures { (result ≡ shift_named w.now) × (result ≤ 5) }
{
    index_of(&SHIFT_NAMES, pack(w)) as u64
}

// By how much: an amount of five bits, or a register.
fn by_named(w: &[u8]) -> u64
    ensures { (result ≡ by_named w.now) × (result < 2 ^ 13) }
{
    if is_number(w) {
        return amount_field(u64::from(read_number::<10>(w))) * 128;
    }
    16 + u64::from(read_reg(w)) * 256
}

// The shift that a word names, and by how much; rrx is ROR #0.
fn shift_of(name: &[u8], by: &[u8]) -> u64
    ensures { (result ≡ shift_of name.now by.now) × (result < 2 ^ 14) }
{
    let shift = shift_named(name);
    if shift == 4 {
        return 0x60;
    }
    shift * 32 + by_named(by)
}

// The twelve bits of the shifted register that a line begins with.
pub fn shifted(l: &[u8]) -> u64
    ensures { (result ≡ shifted_of l.now) × (result < 2 ^ 15) }
{
    let reg = u64::from(register(l));
    let behind = next_word(l);
    let shift = first_word(behind);
    if shift.len() == 0 {
        return reg;
    }
    let by = first_word(next_word(behind));
    reg + shift_of(shift, by)
}

// The twelve bits of the lowest rotation that has a value, or 0: a candidate takes them as they are, and then prints another line.
fn immediate(v: u32) -> u64
    ensures { (result ≡ immediate_of v) × (result < 2 ^ 12) }
{
    for r in 0..16u32 {
        let byte = rotate_right(v, 32 - 2 * r);
        if byte < 256 {
            return u64::from(r * 256 + byte);
        }
    }
    0
}

// The operand 2 that a line begins with: bit 25, and the twelve bits.
pub fn operand(l: &[u8]) -> u64
    ensures { (result ≡ operand_of l.now) × (result < 2 ^ 26) }
{
    let w = first_word(l);
    if is_number(w) {
        return 0x0200_0000 + immediate(read_number::<10>(w));
    }
    shifted(l)
}
