// What the row program answers: for a row, and (block) for a block of its input.
#![tactic(auto, using(text::proofs::Puts::written))]

ghost use Rattle.std.specs.Prelude.{◌++◌, ◌≡◌, ◌+◌, ◌<◌};
ghost use Rattle.text.specs.Text.{text};
ghost use Rattle.text.specs.Digits.{dec};
ghost use Rattle.text.specs.Puts.{puts};
ghost use Rattle.refusal.specs.Refusal.{number};
ghost use Rattle.lines.specs.Answer.{printed};
ghost use Rattle.row.specs.Row.{answer_text, fields_of, hex_number, row_answer, row_form, row_letters, word_line};

use arm_print::print_arm;
use arm7tdmi::Form;
use lines::LINE;
use refusal::Refusal;
use text::put::{Writer, has_room};
use text::read::digit_value;
use thumb_print::print_thumb;

pub mod block;

// A word of one of the two sets.
#[derive(Clone, Copy, Debug, PartialEq, Eq)]
enum Word {
    Arm(u32),
    Thumb(u16),
}

// The number, modulo 2^32, that hexadecimal digits write. With it and `fields_of` in their caller, the digits of each set are no loop.
#[tactic(auto, using(crate::proofs::Answers::number_step, crate::proofs::Answers::number_break, crate::proofs::Answers::number_out), unfolding(crate::specs::Row::hex_number))]
#[inline(always)]
fn hex_number(s: &[u8]) -> Option<u32>
    ensures { result ≡ hex_number s.now }
{
    let mut v: u64 = 0;
    for x in s {
        let d = digit_value(*x);
        if 16 <= d {
            return None;
        }
        v = (v * 16 + d) % 0x1_0000_0000;
    }
    Some(v as u32)
}

// The address and the number of the word of a row with a letter, whose word has n digits.
#[tactic(auto, using(crate::proofs::Answers::number_hex, crate::proofs::Answers::number_none), unfolding(crate::specs::Row::fields_of, crate::specs::Row::is_row))]
#[inline(always)]
fn fields_of(s: &[u8], letter: u8, n: u8) -> Option<(u32, u32)>
    ensures { result ≡ fields_of letter n s.now }
{
    if s.len() != 11 + usize::from(n) || s[0] != letter || s[1] != b' ' || s[10] != b' ' {
        return None;
    }
    let address = hex_number(&s[2..10])?;
    let word = hex_number(&s[11..])?;
    Some((address, word))
}

// The form that a row's letter names: a small one the sheet, a capital the bench.
#[tactic(auto, unfolding(crate::specs::Row::row_form))]
fn row_form(row: &[u8]) -> Form
    ensures { result ≡ row_form row.now }
{
    if row.is_empty() || row[0] < b'a' {
        Form::Bench
    } else {
        Form::Sheet
    }
}

// The letters of a form's rows, of ARM and of Thumb.
#[tactic(auto, unfolding(crate::specs::Row::row_letters))]
fn row_letters(form: Form) -> (u8, u8)
    ensures { result ≡ row_letters form }
{
    match form {
        Form::Sheet => (b'a', b't'),
        Form::Bench => (b'A', b'T'),
    }
}

// Prints a word of either set.
#[tactic(auto, unfolding(crate::specs::Row::word_line))]
fn print_word(form: Form, address: u32, word: Word, buf: &mut [u8]) -> Result<usize, Refusal>
    ensures { printed (word_line form address word) buf.old ≡ (result, buf.new) }
{
    match word {
        Word::Arm(w) => print_arm(form, w, address, buf),
        Word::Thumb(w) => print_thumb(form, w, address, buf),
    }
}

// `!` and a refusal's number, without a line end, which the row's answer has. (That of `worked_listing` ends its line.)
fn put_refusal(out: &mut Writer<'_>, refusal: Refusal)
    ensures { out.new ≡ puts out.old (text "!" ++ dec (number refusal)) }
{
    out.put_byte(b'!');
    out.put_dec(u32::from(refusal));
}

// The answer for a word: straight into the output where any line fits, else by way of a copy.
fn put_word(out: &mut Writer<'_>, form: Form, address: u32, word: Word)
    ensures { out.new ≡ puts out.old (answer_text (word_line form address word)) }
{
    if has_room(out.bytes.len(), out.at, LINE) {
        return match print_word(form, address, word, &mut out.bytes[out.at..]) {
            Ok(n) => out.at += n,
            Err(refusal) => put_refusal(out, refusal),
        };
    }
    let mut line = [0u8; LINE];
    match print_word(form, address, word, &mut line) {
        Ok(n) => out.put_text(&line[..n]),
        Err(refusal) => put_refusal(out, refusal),
    }
}

// The answer for a row.
#[tactic(auto, using(crate::proofs::Answers::fields_both, crate::proofs::Answers::fields_none, crate::proofs::Answers::word_small, text::proofs::Puts::written), unfolding(crate::specs::Row::row_answer, crate::specs::Row::word_line))]
pub fn answer_row(row: &[u8], out: &mut Writer<'_>)
    ensures { out.new ≡ puts out.old (row_answer row.now) }
{
    let form = row_form(row);
    let (arm, thumb) = row_letters(form);
    if let Some((address, word)) = fields_of(row, arm, 8) {
        return put_word(out, form, address, Word::Arm(word));
    }
    if let Some((address, word)) = fields_of(row, thumb, 4) {
        return put_word(out, form, address, Word::Thumb((word % 65536) as u16));
    }
    out.put_text(b"!0");
}
