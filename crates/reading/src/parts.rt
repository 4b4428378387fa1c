// What the words of a line name and write. Each function takes the line from its word on.
ghost use Rattle.std.specs.Prelude.{◌≡◌, ◌≤◌, ◌<◌, ◌^◌, ◌*◌, drop};
ghost use Rattle.arm7tdmi.specs.Names.{reg_named};
ghost use Rattle.reading.specs.Parts.{amount_field, list_in};
ghost use Rattle.text.specs.Digits.{value};
ghost use Rattle.text.specs.Word.{word};

use arm7tdmi::read_reg;
use text::read::{first_word, next_word, read_number};

// The five bits of an amount of places: 32 stands as 0.
pub fn amount_field(n: u64) -> u64
    ensures { (result ≡ amount_field n) × (result < 2 ^ 5) }
{
    n % 32
}

// The register that the first word names, or 16. That it is no more lets the check see that no sum of fields is too large.
pub fn register(l: &[u8]) -> u8
    ensures { (result ≡ reg_named (word l.now)) × (result ≤ 16) }
{
    read_reg(first_word(l)) as u8
}

// The number that the first word writes in a base.
pub fn number<const BASE: u32>(l: &[u8]) -> u32
    ensures { result ≡ value BASE (word l.now) }
{
    read_number::<BASE>(first_word(l))
}

// The number that the first word writes in hexadecimal behind `0x`.
#[tactic(auto, using(common::proofs::Lists::part_rest), unfolding(text::specs::Digits::value_from))]
pub fn hexadecimal(l: &[u8]) -> u32
    ensures { result ≡ value 16 (drop 2 (word l.now)) }
{
    let w = first_word(l);
    if w.len() < 2 {
        return 0;
    }
    read_number::<16>(&w[2..])
}

// A register list: one name, and then the rest, of at most `left` names, as the definition goes.
pub fn register_list(left: u8, l: &[u8]) -> u32
    ensures { (result ≡ list_in left l.now) × (result ≤ left * 2 ^ 16) }
{
    if left == 0 {
        return 0;
    }
    let name = first_word(l);
    if name.is_empty() {
        return 0;
    }
    (1 << read_reg(name)) + register_list(left - 1, next_word(l))
}
