// What the lines of both sets are made of: names, marks and register lists by a word's fields; and how a line is answered.
#![tactic(auto, using(text::proofs::Puts::written))]

ghost use Rattle.std.specs.Prelude.{List, ℕ, length, [], ◌∷◌, ◌≡◌, ◌++◌, ◌≤◌};
ghost use Rattle.text.specs.Text.{text};
ghost use Rattle.text.specs.Puts.{puts};
ghost use Rattle.text.specs.Wrote.{Wrote};
ghost use Rattle.lines.specs.Address.{address};
ghost use Rattle.lines.specs.Answer.{line, printed};
ghost use Rattle.lines.specs.Pieces.{reg_at, cond_at, either, if_set, listed, registers};

use arm7tdmi::bit::{bit, bit_range};
use arm7tdmi::cond::put_cond;
use arm7tdmi::{Form, put_reg};
use refusal::Refusal;
use text::put::{Writer, put_text_at};

// A word and the bits of it that are shown are parameters, as in the Rust's `bit_range(a..b)`: a struct of the three would be taken apart at once.

// The name of the register in bits a up to b.
#[tactic(auto, unfolding(crate::specs::Pieces::reg_at))]
pub fn put_reg_at(out: &mut Writer<'_>, raw: u32, a: u32, b: u32)
    ensures { out.new ≡ puts out.old (reg_at raw a b) }
{
    put_reg(out, bit_range(raw, a, b));
}

// The same with a comma and a space behind it.
pub fn put_reg_comma(out: &mut Writer<'_>, raw: u32, a: u32, b: u32)
    ensures { out.new ≡ puts (puts out.old (reg_at raw a b)) (text ", ") }
{
    put_reg_at(out, raw, a, b);
    out.put_text(b", ");
}

// The name of the condition in bits a up to b.
#[tactic(auto, unfolding(crate::specs::Pieces::cond_at))]
pub fn put_cond_at(out: &mut Writer<'_>, raw: u32, a: u32, b: u32)
    ensures { out.new ≡ puts out.old (cond_at raw a b) }
{
    put_cond(out, bit_range(raw, a, b));
}

// A byte where bit n is set.
#[tactic(auto, unfolding(crate::specs::Pieces::if_set))]
pub fn put_mark(out: &mut Writer<'_>, raw: u32, n: u32, mark: u8)
    ensures { out.new ≡ puts out.old (if_set raw n (mark ∷ [])) }
{
    out.put_if(bit(raw, n), mark);
}

// One text where bit n is set, and another where it is clear.
#[tactic(auto, unfolding(crate::specs::Pieces::either))]
pub fn put_either<'a>(out: &mut Writer<'_>, raw: u32, n: u32, set: &'a [u8], clear: &'a [u8])
    ensures { out.new ≡ puts out.old (either raw n set.now clear.now) }
{
    out.put_text(if bit(raw, n) { set } else { clear });
}

// Register i of a list, with a comma before it where a lower one is in the list.
fn put_listed(out: &mut Writer<'_>, raw: u32, i: u32)
    ensures { out.new ≡ puts out.old (listed raw i) }
{
    if bit(raw, i) {
        if bit_range(raw, 0, i) != 0 {
            out.put_text(b", ");
        }
        put_reg(out, i);
    }
}

// The registers below n of a list: clear bits are passed by, so that few branches are guessed wrong. The loop is a `while`, as std has no iterator over set
// bits. The place of the next name is carried along and stands directly behind the last byte written (specs/Position).
#[inline(always)]
pub fn put_registers(out: &mut Writer<'_>, raw: u32, n: u32)
    ensures { out.new ≡ puts out.old (registers raw n) }
{
    let mut i = 0;
    let mut rest = bit_range(raw, 0, n);
    while rest != 0 {
        let k = i + rest.trailing_zeros();
        put_listed(out, raw, k);
        i = k + 1;
        rest = bit_range(raw, i, n);
    }
}

// An address. S9: the sheet has eight digits, the bench as many as the number has.
#[tactic(auto, using(text::proofs::Puts::written), unfolding(crate::specs::Address::address, text::specs::Digits::prefixed))]
#[inline(always)]
pub fn put_address(out: &mut Writer<'_>, form: Form, n: u32)
    ensures { out.new ≡ puts out.old (address form n) }
{
    match form {
        Form::Bench => out.put_0x(1, n),
        Form::Sheet => {
            out.put_text(b"0x");
            out.put_eight(n);
        }
    }
}

/// A line written elsewhere, of any length, into the lent buffer: its length. Refused with 3 where the buffer is shorter, which keeps its bytes then.
pub fn give_line(buf: &mut [u8], s: &[u8]) -> Result<usize, Refusal>
    ensures { printed (line s.now) buf.old ≡ (result, buf.new) }
{
    let n = s.len();
    if buf.len() < n {
        return Err(Refusal::NoRoom);
    }
    put_text_at(buf, 0, s);
    Ok(n)
}

// The most bytes that a line has. A law cannot name it: `short` says 80.
pub const LINE: usize = 80;

// A line that can be written into a buffer.
pub trait Line {
    ghost shown: { Self → List ℕ };

    fn put(&self, out: &mut Writer<'_>)
        ensures { out.new ≡ puts out.old (shown self.now) };

    /// From a buffer's start on, as far as there is room: the place behind the line. A line of many kinds has this in code of its own.
    #[tactic(auto, unfolding(text::specs::Puts::puts))]
    fn put_first(&self, buf: &mut [u8]) -> usize
        ensures { Wrote buf.old 0 (shown self.now) buf.new result }
    {
        let mut out = Writer { bytes: buf, at: 0 };
        self.put(&mut out);
        out.at
    }

    ghost short: { (x : Self) → length (shown x) ≤ 80 };
}

// A line from a buffer's start on, as far as there is room: the place behind it.
pub fn put_at_start<L: Line>(l: &L, buf: &mut [u8]) -> usize
    ensures { Wrote buf.old 0 (L.shown l.now) buf.new result }
{
    l.put_first(buf)
}

// A line into a lent buffer: its length. A buffer with room for any line takes it straight; a shorter one gets it from a copy, if it fits.
pub fn print_line<L: Line>(l: &L, buf: &mut [u8]) -> Result<usize, Refusal>
    ensures { printed (line (L.shown l.now)) buf.old ≡ (result, buf.new) }
{
    if LINE <= buf.len() {
        return Ok(put_at_start(l, buf));
    }
    let mut scratch = [0u8; LINE];
    let n = put_at_start(l, &mut scratch);
    give_line(buf, &scratch[..n])
}
