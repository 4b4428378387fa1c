// A block of the row program's input: the rows that end in it are answered, and the start of the row that does not is held.
ghost use Rattle.std.specs.Prelude.{[], ◌++◌, ◌≡◌, ◌≤◌, List, ℕ, MatchOption, length, position, take};
ghost use Rattle.text.specs.Puts.{puts};
ghost use Rattle.row.specs.Block.{Ended, NoEnd, answer_line, answers, at_start, held_of, is_end, last_answer, unfinished};

use crate::answer_row;
use std::marker::Model;
use text::put::Writer;

// How many bytes are held of a row between two blocks, how many a block has at most, and how many its answers have at most.
pub const HELD: usize = 20;

pub const BLOCK: usize = 65536;

pub const ROOM: usize = 6 * (HELD + BLOCK);

// The bytes that are held of a row that a block cut. There is no heap, so they stand in an array, with their number. Clauses see them as a list,
// and callers see that list alone and not the invariant: `few` says below what it bounds.
#[derive(Clone, Drop)]
pub struct Begun {
    bytes: [u8; HELD],
    length: usize,
}

impl Model for Begun {
    ghost Value = { List ℕ };

    ghost view = { λ b. take b.length b.bytes };

    ghost invariant = { λ b. b.length ≤ 20 };
}

impl Begun {
    // No row has begun.
    pub fn new() -> Begun
        ensures { result ≡ [] }
    {
        Begun {
            bytes: [0; HELD],
            length: 0,
        }
    }

    /// The bytes that are held.
    pub fn row(&self) -> &[u8]
        ensures bytes { result.now ≡ self.now }
        ensures few { length self.now ≤ HELD }
    {
        &self.bytes[..self.length]
    }

    // The row goes on.
    fn add(&mut self, s: &[u8])
        ensures held { self.new ≡ held_of (self.old ++ s.now) }
        ensures few { length self.old ≤ HELD }
    {
        let mut out = Writer {
            bytes: &mut self.bytes,
            at: self.length,
        };
        out.put_text(s);
        self.length = out.at;
    }

    // Another row begins.
    pub fn hold(&mut self, s: &[u8])
        ensures { self.new ≡ held_of s.now }
    {
        self.length = 0;
        self.add(s);
    }
}

// The answer for a row, and a line end.
fn answer_line(row: &[u8], out: &mut Writer<'_>)
    ensures { out.new ≡ puts out.old (answer_line row.now) }
{
    answer_row(row, out);
    out.put_byte(b'\n');
}

// Where the first line end stands.
fn line_end(s: &[u8]) -> Option<usize>
    ensures { result ≡ position is_end s.now }
{
    s.iter().position(|x| *x == b'\n')
}

// The first row that ends in some bytes of input, and what stands behind its line end.
#[tactic(auto, using(crate::proofs::Blocks::not_ended))]
fn first_row(s: &[u8]) -> Option<(&[u8], &[u8])>
    ensures { MatchOption result (NoEnd s.now) (λ p. Ended s.now p.0.now p.1.now) }
{
    let e = line_end(s)?;
    Some((&s[..e], &s[e + 1..]))
}

// The rows of some bytes of input, the first of which begins with them: each is answered where it lies.
#[tactic(auto, using(crate::proofs::Blocks::rows_on, crate::proofs::Blocks::rows_left, crate::proofs::Blocks::no_end, crate::proofs::Blocks::no_end_left, text::proofs::Puts::puts_nil))]
fn answer_rows(begun: &mut Begun, input: &[u8], out: &mut Writer<'_>)
    ensures wrote { out.new ≡ puts out.old (answers [] input.now) }
    ensures keeps { begun.new ≡ held_of (unfinished [] input.now) }
{
    let mut rest = input;
    while let Some((row, next)) = first_row(rest) {
        answer_line(row, out);
        rest = next;
    }
    begun.hold(rest);
}

// The rows that end in some bytes of input. The first may have begun before them, so it is put together from what is held.
#[tactic(auto, using(crate::proofs::Blocks::first_put, crate::proofs::Blocks::first_left, crate::proofs::Blocks::no_end, crate::proofs::Blocks::no_end_left, text::proofs::Puts::puts_nil))]
fn answer_input(begun: &mut Begun, input: &[u8], out: &mut Writer<'_>)
    ensures wrote { out.new ≡ puts out.old (answers begun.old input.now) }
    ensures keeps { begun.new ≡ held_of (unfinished begun.old input.now) }
    ensures few { length begun.old ≤ HELD }
{
    match first_row(input) {
        None => begun.add(input),
        Some((end, next)) => {
            begun.add(end);
            answer_line(begun.row(), out);
            answer_rows(begun, next, out);
        }
    }
}

// The rows that end in a block: their answers stand at the output's start, so many bytes, and the row that does not end is held. It answers how many and no
// slice, as the contract says what all of the output holds then.
pub fn answer_block(begun: &mut Begun, block: &[u8], out: &mut [u8; ROOM]) -> usize
    ensures out_after { length block.now ≤ BLOCK → (result, out.new) ≡ at_start (answers begun.old block.now) out.old }
    ensures room { result ≤ ROOM }
    ensures begun_after { begun.new ≡ held_of (unfinished begun.old block.now) }
{
    let mut w = Writer { bytes: out, at: 0 };
    answer_input(begun, block, &mut w);
    w.at
}

// The answer for a last row without a line end, if there is one.
pub fn answer_last(begun: &Begun, out: &mut [u8; ROOM]) -> usize
    ensures out_after { (result, out.new) ≡ at_start (last_answer begun.now) out.old }
    ensures room { result ≤ ROOM }
{
    let row = begun.row();
    if row.is_empty() {
        return 0;
    }
    let mut w = Writer { bytes: out, at: 0 };
    answer_line(row, &mut w);
    w.at
}
