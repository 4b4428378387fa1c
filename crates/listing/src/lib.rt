//! The listing of an image, step by step: a struct that holds the lent image and the place that the listing has come to, as a walk.
#![tactic(auto)]

ghost use Rattle.std.specs.Prelude.{◌≡◌};
ghost use Rattle.listing.specs.Listing.{Opened, Resumed, SteppedIs};

use image::Image;
use refusal::Refusal;
use steps::Listed;
use steps::walk::Walk;

/// A walk over the lent image, or over one of no bytes where it, its stretches or the offset were refused; and by which refusal (6, 7 or 8). A refused listing is
/// a listing too, and no `Err`: its first step is an end mark, at 0.
#[derive(Clone, Copy, Debug, PartialEq, Eq)]
pub struct Listing<'a> {
    pub refusal: Option<Refusal>,
    pub walk: Walk<'a>,
}

impl<'a> Listing<'a> {
    /// A listing of an image, resumed at an offset in bytes from its start. Refused with 6 or 7 as the image is, or with 8 where it is
    /// no start of a word and not the image's end.
    pub fn resume(image: Image<'a>, offset: usize) -> Listing<'a>
        ensures { Resumed image.entry.bytes.now image.entry.stretches.now image.entry.base offset result }
    {
        match image.check_place(offset) {
            Ok(()) => Listing {
                refusal: None,
                walk: Walk::new(image, offset),
            },
            Err(refusal) => {
                let nothing = Image {
                    bytes: &[],
                    stretches: &[],
                    ..image
                };
                Listing {
                    refusal: Some(refusal),
                    walk: Walk::new(nothing, 0),
                }
            }
        }
    }

    /// A listing of an image from its start. Refused with 6 or 7 as the image is.
    pub fn open(image: Image<'a>) -> Listing<'a>
        ensures { Opened image.entry.bytes.now image.entry.stretches.now image.entry.base result }
    {
        Listing::resume(image, 0)
    }

    /// The place that a listing has come to: the offset that it is put aside as.
    pub fn offset(self) -> usize
        ensures { result ≡ self.entry.walk.place }
    {
        self.walk.place
    }

    /// One step, printed into a lent buffer. The listing moves on by its byte length: where the buffer is shorter than the line (3), and at the end, it stays.
    pub fn step(&mut self, line: &mut [u8]) -> Listed
        ensures { SteppedIs self.old line.old result line.new self.new }
    {
        self.walk.step(line)
    }
}
