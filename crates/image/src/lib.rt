// An image of words: its bytes, its Thumb stretches, which set holds at a place, and what is refused.
#![tactic(auto)]

ghost use Rattle.std.specs.Prelude.{◌≡◌, ◌+◌, ◌/◌, ◌<◌, ◌≤◌, ◌&&◌, drop, length, nat_lt, slice_get, slice_index, OnOk};
ghost use Rattle.image.specs.Bytes.{half, word};
ghost use Rattle.image.specs.Stretches.{pair_at, pairs, end, left, first_left, set_at};
ghost use Rattle.image.specs.Refusal.{unit, wrong_image, end_of, wrong_pair, wrong_pairs, wrong_list, wrong_place, refusal, refusal_at};

use refusal::Refusal;

// The set at a place; for Thumb, with the end of its stretch. An enum and no `Option`: ARM is a set of words, and not the lack of one.
#[derive(Clone, Copy, Debug, PartialEq, Eq)]
pub enum Set {
    Arm,
    Thumb(usize),
}

impl Set {
    // How many bytes a word of it has.
    fn unit(self) -> usize
        ensures value { result ≡ unit self }
        ensures some { 0 < result }
    {
        match self {
            Set::Arm => 4,
            Set::Thumb(_) => 2,
        }
    }
}

// A Thumb stretch.
#[derive(Clone, Copy, Debug, PartialEq, Eq)]
pub struct Stretch {
    pub offset: u32,
    pub bytes: u32,
}

impl Stretch {
    // The place behind it.
    pub fn end(self) -> usize
        ensures { result ≡ end self }
    {
        self.offset as usize + self.bytes as usize
    }

    // Whether it is refused in an image of a size, where the stretch before it ends at a place.
    fn is_wrong(self, size: usize, before: usize) -> bool
        ensures { result ≡ wrong_pair size before self }
    {
        self.bytes == 0
            || self.offset % 4 != 0
            || self.bytes % 4 != 0
            || size < self.end()
            || (self.offset as usize) < before
    }
}

// The bytes from a place on.
fn bytes_from(s: &[u8], at: usize) -> &[u8]
    ensures { result.now ≡ drop at s.now }
{
    s.get(at..).unwrap_or(&[])
}

// Byte k of some bytes; one past the end counts as 0.
fn byte_or_zero(s: &[u8], k: usize) -> u8
    ensures { result ≡ slice_index s.now k }
{
    s.get(k).copied().unwrap_or(0)
}

// The halfword at a place of some bytes; those past the end count as 0. Where there are enough they are read at once; else one by one, as a copy of so few would
// make the library need C's `memcpy`.
pub fn half_at(s: &[u8], at: usize) -> u16
    ensures { result ≡ half s.now at }
{
    let rest = bytes_from(s, at);
    if let Some((bytes, _)) = rest.split_first_chunk() {
        return u16::from_le_bytes(*bytes);
    }
    u16::from_le_bytes([byte_or_zero(rest, 0), byte_or_zero(rest, 1)])
}

// The word.
pub fn word_at(s: &[u8], at: usize) -> u32
    ensures { result ≡ word s.now at }
{
    let rest = bytes_from(s, at);
    if let Some((bytes, _)) = rest.split_first_chunk() {
        return u32::from_le_bytes(*bytes);
    }
    u32::from_le_bytes([
        byte_or_zero(rest, 0),
        byte_or_zero(rest, 1),
        byte_or_zero(rest, 2),
        byte_or_zero(rest, 3),
    ])
}

// An image that is lent: its bytes, its Thumb stretches as pairs of offset and length, of 32 bits each, and the address of its first byte. The pairs are
// bytes and no slice of `Stretch`: C lends them so, and there is no heap for a copy. Clauses take the three one by one, as the definitions do.
#[derive(Clone, Copy, Debug, PartialEq, Eq)]
pub struct Image<'a> {
    pub bytes: &'a [u8],
    pub stretches: &'a [u8],
    pub base: u32,
}

impl<'a> Image<'a> {
    // How many stretches there are.
    fn count(self) -> usize
        ensures { result ≡ length self.entry.stretches.now / 8 }
    {
        self.stretches.len() / 8
    }

    // Stretch i, if there are as many. By its number, since a listing goes on from the number of the first that is left.
    fn stretch(self, i: usize) -> Option<Stretch>
        ensures { result ≡ slice_get (pairs self.entry.stretches.now) i }
    {
        if self.count() <= i {
            return None;
        }
        let pair = &self.stretches[8 * i..8 * i + 8];
        Some(Stretch {
            offset: word_at(pair, 0),
            bytes: word_at(pair, 4),
        })
    }

    // Whether there is a stretch i that ends past a place.
    fn ends_past(self, i: usize, at: usize) -> bool
        ensures { result ≡ (nat_lt i (length self.entry.stretches.now / 8) && nat_lt at (end (pair_at self.entry.stretches.now i))) }
    {
        self.stretch(i).is_some_and(|s| at < s.end())
    }

    // From stretch next on, the first whose end is past a place: looked for from the front, as the stretches are in order only where they are not refused.
    // Inlined, a step of a listing takes no copy of the image.
    #[inline(always)]
    pub fn first_left(self, next: usize, at: usize) -> usize
        ensures { result ≡ first_left self.entry.stretches.now next at }
    {
        let n = self.count();
        (next..n)
            .find(|i| self.ends_past(*i, at))
            .unwrap_or(next.max(n))
    }

    // The set at a place, by the stretches from number next on.
    pub fn set_at(self, next: usize, at: usize) -> Set
        ensures { result ≡ set_at (left self.entry.stretches.now next) at }
    {
        match self.stretch(self.first_left(next, at)) {
            Some(s) if s.offset as usize <= at => Set::Thumb(s.end()),
            _ => Set::Arm,
        }
    }

    // Whether the bytes are refused.
    fn wrong_bytes(self) -> bool
        ensures { result ≡ wrong_image self.entry.bytes.now }
    {
        65536 < self.bytes.len() || self.bytes.len() % 4 != 0
    }

    // The end of stretch i, unless it is refused where the stretch before it ends at a place.
    fn end_of(self, i: usize, before: usize) -> Option<usize>
        ensures { result ≡ end_of (length self.entry.bytes.now) before (slice_get (pairs self.entry.stretches.now) i) }
    {
        match self.stretch(i) {
            Some(s) if !s.is_wrong(self.bytes.len(), before) => Some(s.end()),
            _ => None,
        }
    }

    // Whether one of the stretches is refused.
    fn wrong_stretch(self) -> bool
        ensures { result ≡ wrong_pairs (length self.entry.bytes.now) 0 (pairs self.entry.stretches.now) }
    {
        (0..self.count())
            .try_fold(0, |before, i| self.end_of(i, before))
            .is_none()
    }

    // Whether the list of them is.
    fn wrong_stretches(self) -> bool
        ensures { result ≡ wrong_list self.entry.bytes.now self.entry.stretches.now }
    {
        self.stretches.len() % 8 != 0 || self.wrong_stretch()
    }

    // Whether bytes and stretches are those of an image. It has 65,536 bytes at most then, and its start is a place of it.
    #[tactic(auto, using(crate::proofs::Valid::start_same), unfolding(crate::specs::Refusal::refusal))]
    pub fn check(self) -> Result<(), Refusal>
        ensures answer { result ≡ refusal self.entry.bytes.now self.entry.stretches.now }
        ensures short { OnOk result (length self.entry.bytes.now ≤ 65536) }
        ensures start { result ≡ refusal_at self.entry.bytes.now self.entry.stretches.now 0 }
    {
        if self.wrong_bytes() {
            return Err(Refusal::WrongImage);
        }
        if self.wrong_stretches() {
            return Err(Refusal::WrongStretches);
        }
        Ok(())
    }

    // Whether a place is no start of a word.
    fn wrong_place(self, at: usize) -> bool
        ensures { result ≡ wrong_place self.entry.bytes.now self.entry.stretches.now at }
    {
        self.bytes.len() < at || at % self.set_at(0, at).unit() != 0
    }

    // The same, and whether a place in it is the start of a word, or the end.
    #[tactic(auto, unfolding(crate::specs::Refusal::refusal_at))]
    pub fn check_place(self, at: usize) -> Result<(), Refusal>
        ensures { result ≡ refusal_at self.entry.bytes.now self.entry.stretches.now at }
    {
        self.check()?;
        if self.wrong_place(at) {
            return Err(Refusal::WrongPlace);
        }
        Ok(())
    }
}
