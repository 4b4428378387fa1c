// What words of both sets are made of: names, numbers, opcodes and operands. The files are named as in the Rust original.
#![tactic(auto, using(text::proofs::Puts::written), unfolding(text::specs::Puts::puts))]

ghost use Rattle.std.specs.Prelude.{◌≡◌, ◌+◌, ◌*◌, ◌^◌, ◌≤◌, map};
ghost use Rattle.common.specs.Lists.{find};
ghost use Rattle.text.specs.Word.{packed};
ghost use Rattle.text.specs.Puts.{puts};
ghost use Rattle.arm7tdmi.specs.Names.{letters, reg_names, reg_string, reg_named};

use text::put::Writer;
use text::read::{item_or, pack};

pub mod alu;
pub mod bit;
pub mod cond;
pub mod kinds;
pub mod memory;
pub mod psr;

// Which line is meant: the bench viewer's, or the data sheet's.
#[derive(Clone, Copy, Debug, PartialEq, Eq)]
pub enum Form {
    Bench,
    Sheet,
}

// The name of a register, `reg_string` of the Rust; nothing for a number past 15.
#[tactic(auto, using(text::proofs::Puts::written, crate::proofs::Names::reg_none, crate::proofs::Names::reg_written))]
pub fn put_reg(out: &mut Writer<'_>, reg: u32)
    ensures { out.new ≡ puts out.old (reg_string reg) }
{
    if reg < 16 {
        put_letters(out, b"r0r1r2r3r4r5r6r7r8r9r1fpipsplrpc", reg);
        if reg == 10 {
            out.put_byte(b'0');
        }
    }
}

// Name i of names of two letters each. They stand in one text, which stays where it is; an array of texts would be copied at each call.
#[tactic(auto, using(text::proofs::Puts::written), unfolding(crate::specs::Names::letters))]
fn put_letters(out: &mut Writer<'_>, names: &[u8], i: u32)
    ensures { out.new ≡ puts out.old (letters names.now i) }
{
    let at = 2 * i as usize;
    out.put_byte(item_or(names, at, 0));
    out.put_byte(item_or(names, at + 1, 0));
}

// The register whose packed name is `r` and then m, or 16, as `read_reg` answers.
fn numbered_reg(m: u64) -> u32
    ensures { (result ≡ find (m * 2 ^ 8 + 0x72) (map packed reg_names)) × (result ≤ 16) }
{
    if m < 0x30 {
        return 16;
    }
    if m <= 0x39 {
        return (m - 0x30) as u32;
    }
    if m == 0x3031 {
        return 10;
    }
    16
}

// The register of a packed name, or 16.
#[tactic(auto, unfolding(common::specs::Lists::first, text::specs::Word::packed, crate::specs::Names::reg_names))]
fn named_reg(n: u64) -> u32
    ensures { (result ≡ find n (map packed reg_names)) × (result ≤ 16) }
{
    if n % 256 == 0x72 {
        return numbered_reg(n / 256);
    }
    match n {
        0x7066 => 11, // fp
        0x7069 => 12, // ip
        0x7073 => 13, // sp
        0x726c => 14, // lr
        0x6370 => 15, // pc
        _ => 16,
    }
}

// The register that a word names, or 16. No Option: a candidate takes 16 as any number, since a word that a wrong name gives does not print the line.
pub fn read_reg(s: &[u8]) -> u32
    ensures { (result ≡ reg_named s.now) × (result ≤ 16) }
{
    named_reg(pack(s))
}
