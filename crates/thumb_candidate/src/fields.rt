// What the operands of a line fill in, of each kind.
ghost use Rattle.std.specs.Prelude.{◌≡◌, cond, eqb, true, false, ℕ, ◌+◌, ◌*◌, ◌-◌, ◌/◌, ◌%◌, ◌^◌, ltb};
ghost use Rattle.arm7tdmi.specs.Signed.{moved};
ghost use Rattle.thumb_candidate.specs.Candidate.{block_in, call_unit, high_in, low_in, offset_in, shift_in, signed, sp_in, stack_in, third_in, transfer_unit, wide_in};
ghost use Rattle.text.specs.Word.{has};
ghost use Rattle.reading.specs.Parts.{amount_field, bare_in, dec_in, flag, hex_in, reg_in};

use crate::parts::Sought;
use arm7tdmi::Form;
use reading::parts::{hexadecimal, number, register_list};
use text::read::has;

// Rd and Rs, or Rd and Rb.
#[tactic(auto, unfolding(crate::specs::Candidate::low_in))]
pub fn low(sought: &Sought) -> u16
    ensures { result ≡ low_in sought.now.line.now }
{
    u16::from(sought.second) * 8 + u16::from(sought.first)
}

// Ro, Rd and Rb.
pub fn three_low(sought: &Sought) -> u32
    ensures { result ≡ reg_in 3 sought.now.line.now * 2 ^ 6 + low_in sought.now.line.now }
{
    u32::from(sought.third) * 64 + u32::from(low(sought))
}

// LSL, LSR and ASR, by their capitals.
#[tactic(auto, unfolding(crate::specs::Candidate::shift_in))]
fn shift(sought: &Sought) -> u8
    ensures { result ≡ shift_in sought.now.line.now }
{
    if has(sought.line, b'A') {
        return 2;
    }
    u8::from(has(sought.line, b'R'))
}

// A shift by a number: 32 stands as 0.
pub fn shifted(sought: &Sought) -> u32
    ensures { result ≡ shift_in sought.now.line.now * 2 ^ 11 + amount_field (dec_in 3 sought.now.line.now) * 2 ^ 6 + low_in sought.now.line.now }
{
    let amount = number::<10>(sought.three) % 32;
    u32::from(shift(sought)) * 2048 + amount * 64 + u32::from(low(sought))
}

// The last operand of add and sub: a number, which `#` says, or a register.
#[tactic(auto, unfolding(crate::specs::Candidate::third_in))]
fn third(sought: &Sought) -> u16
    ensures { result ≡ third_in sought.now.line.now }
{
    if has(sought.line, b'#') {
        return 1024 + (number::<16>(sought.three) % 8) as u16 * 64;
    }
    u16::from(sought.third) * 64
}

// add and sub.
pub fn add_sub(sought: &Sought) -> u32
    ensures { result ≡ third_in sought.now.line.now + low_in sought.now.line.now }
{
    u32::from(third(sought)) + u32::from(low(sought))
}

// A register and a byte.
pub fn with_byte(sought: &Sought, n: u32) -> u16
    ensures { result ≡ reg_in 1 sought.now.line.now * 2 ^ 8 + n % 2 ^ 8 }
{
    u16::from(sought.first) * 256 + (n % 256) as u16
}

// A register and a byte that counts words.
#[tactic(auto, unfolding(crate::specs::Candidate::wide_in))]
pub fn wide(sought: &Sought) -> u16
    ensures { result ≡ wide_in sought.now.line.now }
{
    with_byte(sought, hexadecimal(sought.three) / 4)
}

// High registers; bx, of the bits 0x4700, has a source alone.
#[tactic(auto, unfolding(crate::specs::Candidate::high_in))]
pub fn high(bits: u16, sought: &Sought) -> u16
    ensures { result ≡ high_in bits sought.now.line.now }
{
    let first = u16::from(sought.first);
    if bits == 0x4700 {
        return first * 8;
    }
    first / 8 * 128 + u16::from(sought.second) * 8 + first % 8
}

// A transfer with a number.
pub fn with_number(sought: &Sought, n: u32) -> u32
    ensures { result ≡ n % 2 ^ 5 * 2 ^ 6 + low_in sought.now.line.now }
{
    n % 32 * 64 + u32::from(low(sought))
}

// A transfer with a number that counts bytes (bit 12) or words.
pub fn transfer(bits: u16, sought: &Sought) -> u32
    ensures { result ≡ hex_in 3 sought.now.line.now / transfer_unit bits % 2 ^ 5 * 2 ^ 6 + low_in sought.now.line.now }
{
    let n = hexadecimal(sought.three);
    if bits / 0x1000 % 2 == 1 {
        return with_number(sought, n);
    }
    with_number(sought, n / 4)
}

// An address from pc or sp.
pub fn address(sought: &Sought) -> u32
    ensures { result ≡ flag (eqb (reg_in 2 sought.now.line.now) 13) * 2 ^ 11 + wide_in sought.now.line.now }
{
    u32::from(sought.second == 13) * 2048 + u32::from(wide(sought))
}

// The number that sp is moved by, and its sign.
fn with_sign(minus: bool, n: u32) -> u32
    ensures { result ≡ signed minus n }
{
    u32::from(minus) * 128 + n / 4 % 128
}

// add of sp on the bench: a large number is one subtracted.
fn sp_bench(sought: &Sought) -> u32
    ensures { result ≡ cond (ltb (bare_in 2 sought.now.line.now) (2 ^ 31)) (signed false (bare_in 2 sought.now.line.now)) (signed true (2 ^ 32 - bare_in 2 sought.now.line.now)) }
{
    let n = number::<16>(sought.two);
    if n < 0x8000_0000 {
        return with_sign(false, n);
    }
    with_sign(true, n.wrapping_neg())
}

// add of sp on the sheet.
fn sp_sheet(sought: &Sought) -> u32
    ensures { result ≡ signed (has 45 sought.now.line.now) (hex_in 2 sought.now.line.now) }
{
    with_sign(has(sought.line, b'-'), hexadecimal(sought.two))
}

// add of sp.
#[tactic(auto, unfolding(crate::specs::Candidate::sp_in))]
pub fn sp(sought: &Sought) -> u32
    ensures { result ≡ sp_in sought.now.form sought.now.line.now }
{
    match sought.form {
        Form::Bench => sp_bench(sought),
        Form::Sheet => sp_sheet(sought),
    }
}

// push and pop: eight registers, and lr or pc as bit 8.
#[tactic(auto, unfolding(crate::specs::Candidate::stack_in))]
pub fn stack(sought: &Sought) -> u32
    ensures { result ≡ stack_in sought.now.line.now }
{
    let list = register_list(9, sought.one);
    list % 256 + u32::from(256 < list) * 256
}

// The base and the registers; the bench shows the registers alone.
#[tactic(auto, unfolding(crate::specs::Candidate::block_in))]
pub fn block(sought: &Sought) -> u32
    ensures { result ≡ block_in sought.now.form sought.now.line.now }
{
    let list = register_list(8, sought.two);
    match sought.form {
        Form::Bench => list,
        Form::Sheet => u32::from(sought.first) * 256 + list,
    }
}

// How far a target is from the address plus 4, halved.
#[tactic(auto, unfolding(crate::specs::Candidate::offset_in))]
pub fn offset(sought: &Sought) -> u32
    ensures { result ≡ offset_in sought.now.pc sought.now.line.now }
{
    hexadecimal(sought.one).wrapping_sub(sought.pc.wrapping_add(4)) / 2
}

// The half of a call, which counts half words (bit 11) or 4096.
pub fn call(bits: u16, sought: &Sought) -> u32
    ensures { result ≡ hex_in 1 sought.now.line.now / call_unit bits % 2 ^ 11 }
{
    let target = hexadecimal(sought.one);
    if bits / 0x0800 % 2 == 1 {
        return target / 2 % 2048;
    }
    target / 4096 % 2048
}
