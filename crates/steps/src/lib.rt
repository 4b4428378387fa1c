// The steps of a listing: what stands at a place of an image, and its sheet line into a lent buffer.
#![tactic(auto)]

ghost use Rattle.std.specs.Prelude.{◌≡◌, ◌+◌};
ghost use Rattle.arm7tdmi.specs.Signed.{moved};
ghost use Rattle.lines.specs.Answer.{printed};
ghost use Rattle.image.specs.Bytes.{half};
ghost use Rattle.image.specs.Stretches.{left};
ghost use Rattle.steps.specs.Steps.{call_pair, span_in, span_bytes, span_line, span_here};
ghost use Rattle.steps.specs.Listed.{listed_refusal, listed_offset, listed_bytes, listed_length, told, listed, list_step};

pub mod walk;

use arm_print::print_arm;
use arm7tdmi::Form;
use image::{Image, Set, half_at, word_at};
use pairs::print::print_pair;
use refusal::Refusal;
use text::put::has_room;
use thumb::is_pair;
use thumb_print::print_thumb;

// What a step covers: an ARM word, a Thumb halfword, or the two halfwords of a call.
#[derive(Clone, Copy, Debug, PartialEq, Eq)]
pub enum Span {
    Word,
    Half,
    Pair,
}

impl Span {
    // What a step covers at a place, by the set there.
    #[tactic(auto, unfolding(crate::specs::Steps::span_in))]
    fn of(image: &[u8], s: Set, at: usize) -> Span
        ensures { result ≡ span_in image.now s at }
    {
        match s {
            Set::Arm => Span::Word,
            Set::Thumb(e) if call_pair(image, e, at) => Span::Pair,
            Set::Thumb(_) => Span::Half,
        }
    }

    // How many bytes that is.
    pub fn bytes(self) -> usize
        ensures { result ≡ span_bytes self }
    {
        match self {
            Span::Word => 4,
            Span::Half => 2,
            Span::Pair => 4,
        }
    }

    // What it shows at a place of an image, into a buffer.
    #[tactic(auto, unfolding(crate::specs::Steps::span_line))]
    pub fn print(self, image: &[u8], pc: u32, at: usize, line: &mut [u8]) -> Result<usize, Refusal>
        ensures { printed (span_line image.now self pc at) line.old ≡ (result, line.new) }
    {
        match self {
            Span::Word => print_arm(Form::Sheet, word_at(image, at), pc, line),
            Span::Half => print_thumb(Form::Sheet, half_at(image, at), pc, line),
            Span::Pair => {
                let (first, second) = halves_at(image, at);
                print_pair(first, second, pc, line)
            }
        }
    }
}

// What a step answers.
#[derive(Clone, Copy, Debug, PartialEq, Eq)]
pub enum Listed {
    // offset, byte length, length of the line
    Line(usize, usize, usize),
    // the word is refused: why, offset, byte length
    Refused(Refusal, usize, usize),
    // the buffer is shorter than the line: offset
    NoRoom(usize),
    // the end mark: offset
    End(usize),
}

impl Listed {
    // The refusal, if there is one.
    pub fn refusal(self) -> Option<Refusal>
        ensures { result ≡ listed_refusal self }
    {
        match self {
            Listed::Refused(refusal, _, _) => Some(refusal),
            Listed::NoRoom(_) => Some(Refusal::NoRoom),
            Listed::Line(_, _, _) | Listed::End(_) => None,
        }
    }

    // The offset of the step, or of the end mark.
    pub fn offset(self) -> usize
        ensures { result ≡ listed_offset self }
    {
        match self {
            Listed::Line(offset, _, _)
            | Listed::Refused(_, offset, _)
            | Listed::NoRoom(offset)
            | Listed::End(offset) => offset,
        }
    }

    // How many bytes the listing moves on by.
    pub fn bytes(self) -> usize
        ensures { result ≡ listed_bytes self }
    {
        match self {
            Listed::Line(_, bytes, _) | Listed::Refused(_, _, bytes) => bytes,
            Listed::NoRoom(_) | Listed::End(_) => 0,
        }
    }

    // The length of the line.
    pub fn length(self) -> usize
        ensures { result ≡ listed_length self }
    {
        match self {
            Listed::Line(_, _, length) => length,
            Listed::Refused(_, _, _) | Listed::NoRoom(_) | Listed::End(_) => 0,
        }
    }
}

// The two halfwords at a place.
#[tactic(auto, unfolding(image::specs::Bytes::word))]
fn halves_at(image: &[u8], at: usize) -> (u16, u16)
    ensures { (result.0 ≡ half image.now at) × (result.1 ≡ half image.now (at + 2)) }
{
    let both = word_at(image, at);
    ((both % 0x1_0000) as u16, (both / 0x1_0000) as u16)
}

// Whether a call pair stands at a place of a stretch that ends at e.
#[tactic(auto, unfolding(crate::specs::Steps::call_pair))]
fn call_pair(image: &[u8], e: usize, at: usize) -> bool
    ensures { result ≡ call_pair image.now e at }
{
    let (first, second) = halves_at(image, at);
    has_room(e, at, 4) && is_pair(first, second)
}

// The address of a place.
pub fn address(base: u32, at: usize) -> u32
    ensures { result ≡ moved base at }
{
    base.wrapping_add((at % 0x1_0000_0000) as u32)
}

// The answer of a step by what its print answered.
fn told(at: usize, bytes: usize, printed: Result<usize, Refusal>) -> Listed
    ensures { result ≡ told at bytes printed }
{
    match printed {
        Ok(length) => Listed::Line(at, bytes, length),
        Err(Refusal::NoRoom) => Listed::NoRoom(at),
        Err(refusal) => Listed::Refused(refusal, at, bytes),
    }
}

// What the step at a place covers, by the stretches from number next on; none where the image does not have all of its bytes.
fn span_here(image: Image, next: usize, at: usize) -> Option<Span>
    ensures { result ≡ span_here image.entry.bytes.now (left image.entry.stretches.now next) at }
{
    let span = Span::of(image.bytes, image.set_at(next, at), at);
    if has_room(image.bytes.len(), at, span.bytes()) {
        return Some(span);
    }
    None
}

// The step at a place, by the stretches from number next on.
fn step_at(image: Image, next: usize, at: usize, line: &mut [u8]) -> Listed
    ensures { listed image.entry.bytes.now (left image.entry.stretches.now next) image.entry.base at line.old ≡ (result, line.new) }
{
    match span_here(image, next, at) {
        Some(span) => {
            let pc = address(image.base, at);
            told(at, span.bytes(), span.print(image.bytes, pc, at, line))
        }
        None => Listed::End(at),
    }
}

// One step of the listing of an image, at any place; 6, 7 or 8 where image, stretches or place are refused.
#[tactic(auto, unfolding(crate::specs::Listed::list_step))]
pub fn list_step(image: Image, at: usize, line: &mut [u8]) -> Result<Listed, Refusal>
    ensures { list_step image.entry.bytes.now image.entry.stretches.now image.entry.base at line.old ≡ (result, line.new) }
{
    image.check_place(at)?;
    Ok(step_at(image, 0, at, line))
}
