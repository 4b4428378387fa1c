// The listing's measure: lists an image as often as asked, or prints its lines alone, and writes the number of steps of one pass. Standard input has the
// number of passes, with bit 31 set for the prints alone, and the image's length, 32-bit little-endian each, the image, and the pairs of its stretches, or
// for the prints alone a letter for each step: w for an ARM word, h for a Thumb halfword, p for a call pair.
#![tactic(auto)]

use image::{Image, word_at};
use input::read_full;
use lines::LINE;
use listing::Listing;
use std::io;
use steps::{Span, address};
use text::put::part;

// The most bytes of input: two numbers, 65,536 of an image, and the 16,384 pairs that it may have.
const INPUT: usize = 196616;

// One pass from start to end: its number of steps; 0 where image or stretches are refused.
fn pass(image: Image, line: &mut [u8; LINE]) -> usize {
    let mut listing = Listing::open(image);
    (0..image.bytes.len())
        .take_while(|_| listing.step(line).bytes() != 0)
        .count()
}

// What a letter of the input stands for. No `From`: `Span` is another crate's.
fn span_of(letter: u8) -> Span {
    match letter {
        b'w' => Span::Word,
        b'p' => Span::Pair,
        _ => Span::Half,
    }
}

// The prints of one pass alone, where it is known what stands at each place: their number. The loop carries the place.
fn prints(image: &[u8], letters: &[u8], line: &mut [u8; LINE]) -> usize {
    let mut at: usize = 0;
    for letter in letters {
        let span = span_of(*letter);
        let _printed = span.print(image, address(0, at), at, line);
        at = at.wrapping_add(span.bytes());
    }
    letters.len()
}

// So many passes: the number of steps of the last. The loop repeats, and takes nothing from its count.
fn passes<F: FnMut(&mut [u8; LINE]) -> usize>(n: u32, mut pass: F) -> usize
    requires { F.IsAlwaysCallable pass }
{
    let mut line = [0u8; LINE];
    let mut steps = 0;
    for _ in 0..n {
        steps = pass(&mut line);
    }
    steps
}

// The passes that an input asks for: each a listing of the image at base 0 by its stretches, or the prints of its spans alone.
fn list(input: &[u8]) -> usize {
    let n = word_at(input, 0);
    let size = word_at(input, 4) as usize;
    let bytes = part(input, 8, size);
    let rest = part(input, 8 + size, INPUT);
    if n >= 0x8000_0000 {
        return passes(n % 0x8000_0000, |line| prints(bytes, rest, line));
    }
    let image = Image {
        bytes,
        stretches: rest,
        base: 0,
    };
    passes(n, |line| pass(image, line))
}

fn main(rt: HostRuntime) -> io::Result<()> {
    let mut space = [0u8; INPUT];
    let n = read_full(&mut rt.stdin(), &mut space)?;
    let steps = list(part(&space, 0, n));
    println!(rt; "{steps}")
}
