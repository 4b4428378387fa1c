//! The steps of a listing one after another: an image, and the place in it that has been come to.

ghost use Rattle.std.specs.Prelude.{◌≡◌, ◌+◌, length, Ok};
ghost use Rattle.image.specs.Refusal.{refusal_at};
ghost use Rattle.image.specs.Stretches.{Passed, pairs};
ghost use Rattle.steps.specs.Steps.{span_bytes, Follow};

use crate::{Listed, Span, span_here, step_at};
use image::Image;

/// A step that is not printed: the image that it is of, what it covers, its offset, and the offset behind it, in bytes from the image's start.
#[derive(Clone, Copy, Debug, PartialEq, Eq)]
pub struct UnprintedStep<'a> {
    pub image: Image<'a>,
    pub span: Span,
    pub offset: usize,
    pub end: usize,
    pub ghost ends: { end ≡ offset + span_bytes span },
}

/// A walk over the steps of an image's listing: the image, and the place that has been come to, in bytes from its start. As an iterator it yields the steps
/// from there on, not printed; `step` prints one. Any image, stretches and place will do: there is a step as long as the image has all of its bytes.
#[derive(Clone, Copy, Debug, PartialEq, Eq)]
pub struct Walk<'a> {
    pub image: Image<'a>,
    pub place: usize,
    // The number of the first stretch that may still tell of the place, or of one behind it: those before it are not looked at again.
    next: usize,
    ghost passed: { Passed image.stretches.now next place },
}

impl<'a> Walk<'a> {
    ghost use Rattle.steps.specs.Listed.{listed, next_place};
    ghost use Rattle.steps.specs.Walk.{rest};

    /// A walk over the steps of an image from a place on. From a place that is not refused they follow one another, without gap or overlap, to the image's end.
    #[tactic(auto, using(crate::proofs::Steps::steps_follow))]
    pub fn new(image: Image<'a>, place: usize) -> Self
        ensures image { result.image ≡ image.entry }
        ensures place { result.place ≡ place }
        ensures follow { refusal_at image.entry.bytes.now image.entry.stretches.now place ≡ Ok tt → Follow place (rest result) (length image.entry.bytes.now) }
    {
        Walk {
            image,
            place,
            next: 0,
        }
    }

    /// Prints the step at the place into a lent buffer, and moves on by its byte length; where the buffer is shorter than the line (3), and at the end, the
    /// place stays.
    pub fn step(&mut self, line: &mut [u8]) -> Listed
        ensures answer { listed self.old.image.bytes.now (pairs self.old.image.stretches.now) self.old.image.base self.old.place line.old ≡ (result, line.new) }
        ensures image { self.new.image ≡ self.old.image }
        ensures place { self.new.place ≡ next_place result }
    {
        let next = self.image.first_left(self.next, self.place);
        let listed = step_at(self.image, next, self.place, line);
        self.place += listed.bytes();
        self.next = next;
        listed
    }
}

impl<'a> Iterator for Walk<'a> {
    ghost use Rattle.std.specs.Iterator.{YieldsFirstBy, item_count};
    ghost use Rattle.steps.specs.Walk.{listed_step, rest};

    type Item = UnprintedStep<'a>;

    ghost next_gives = { YieldsFirstBy listed_step rest };

    ghost remaining = { item_count rest };

    // Each loop over a walk has it in its own place, where a step need not go through memory.
    #[inline(always)]
    fn next(&mut self) -> Option<UnprintedStep<'a>> {
        self.next = self.image.first_left(self.next, self.place);
        let span = span_here(self.image, self.next, self.place)?;
        let offset = self.place;
        self.place += span.bytes();
        Some(UnprintedStep {
            image: self.image,
            span,
            offset,
            end: self.place,
        })
    }
}
