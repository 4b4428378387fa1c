//! The last 256 steps of a walk, of which only what counts is kept.

ghost use Rattle.std.specs.Prelude.{◌≡◌, ℕ, ◌+◌, ◌<◌, [], ◌∷◌, ◌++◌, drop, replicate};
ghost use Rattle.worst_run.specs.Worst.{blank, kept_run};
ghost use Rattle.worst_run.specs.Window.{kept_at, IsNear};

use crate::{RUN, Run};
use std::marker::Model;

/// What is kept of a step: whether it shows no instruction, and its offset.
#[derive(Clone, Copy, Debug, PartialEq, Eq)]
pub struct Kept {
    pub invalid: bool,
    pub offset: usize,
}

/// The last 256 steps, from the oldest on; before there are so many, steps that count nothing and begin at 0 stand in front of them. A ring: each step that
/// comes takes the place of the oldest. With a byte for each step the compiler fills it in line; a larger one it would clear by the `memset` of a C library.
#[derive(Drop)]
pub struct Window {
    // Of each step twice the distance from the step before it, and one more where it shows an instruction.
    ring: [u8; RUN],
    oldest: usize,
    // Where the oldest step begins, and where the latest does.
    offset_oldest: usize,
    offset_latest: usize,
    // How many of them show no instruction.
    count: usize,
}

impl Model for Window {
    ghost use Rattle.std.specs.Prelude.{◌≡◌, ◌<◌, List, ◌++◌, count_by, drop, take};
    ghost use Rattle.worst_run.specs.Window.{kept_ring, latest_offset};
    ghost use Rattle.worst_run.specs.declared.window.Kept.{Kept};

    ghost Value = { List Kept };

    ghost view = { λ w. kept_ring w.offset_oldest (drop w.oldest w.ring ++ take w.oldest w.ring) };

    ghost invariant = { λ w. (w.oldest < 256)
        × (w.count ≡ count_by (λ k. k.invalid) (kept_ring w.offset_oldest (drop w.oldest w.ring ++ take w.oldest w.ring)))
        × (w.offset_latest ≡ latest_offset (kept_ring w.offset_oldest (drop w.oldest w.ring ++ take w.oldest w.ring))) };
}

// A step as a byte of the ring.
fn byte_of(distance: usize, invalid: bool) -> u8
    requires { distance < 128 }
    ensures { (at : ℕ) → kept_at at result ≡ record { invalid = invalid; offset = at + distance } }
{
    2 * distance as u8 + u8::from(!invalid)
}

impl Window {
    /// A window before the first step.
    pub fn new() -> Self
        ensures { result ≡ replicate 256 blank }
    {
        Window {
            ring: [1; RUN],
            oldest: 0,
            offset_oldest: 0,
            offset_latest: 0,
            count: 0,
        }
    }

    // The oldest step.
    fn first(&self) -> Kept
        ensures { self.now ≡ result ∷ drop 1 self.now }
    {
        Kept {
            invalid: self.ring[self.oldest] % 2 == 0,
            offset: self.offset_oldest,
        }
    }

    /// Takes in the next step, and lets the oldest go.
    pub fn push(&mut self, step: Kept)
        requires { IsNear self.now step }
        ensures { self.new ≡ drop 1 self.old ++ step ∷ [] }
    {
        let oldest = self.first();
        self.ring[self.oldest] = byte_of(step.offset - self.offset_latest, step.invalid);
        self.offset_latest = step.offset;
        self.count += usize::from(step.invalid);
        self.count -= usize::from(oldest.invalid);
        self.oldest = (self.oldest + 1) % RUN;
        self.offset_oldest += usize::from(self.ring[self.oldest] / 2);
    }

    /// The run that the window holds.
    pub fn run(&self) -> Run
        ensures { result ≡ kept_run self.now }
    {
        Run {
            count: self.count,
            offset: self.first().offset,
        }
    }
}
