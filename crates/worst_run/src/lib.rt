//! The worst run of a listing: of all its runs of 256 consecutive steps, the first with the most steps that show no instruction. Data that is taken for code
//! stands out so. One walk over the listing, which prints no line.
#![tactic(auto)]

ghost use Rattle.std.specs.Prelude.{◌≡◌, ◌↔◌, ℕ, length, map, IfOk, IsOk, Ok};
ghost use Rattle.image.specs.Refusal.{refusal, refusal_at};
ghost use Rattle.steps.specs.Steps.{steps, Follow};
ghost use Rattle.steps.specs.Walk.{listed_step};
ghost use Rattle.lines.specs.Answer.{is_invalid};
ghost use Rattle.worst_run.specs.Worst.{kept, run_of, runs, worst_of, worst_run};
ghost use Rattle.worst_run.specs.Laws.{HasMost, IsFirst, IsReached, IsSmall};

mod window;

use arm7tdmi::Form;
use image::{Image, half_at, word_at};
use refusal::Refusal;
use steps::Span;
use steps::walk::{UnprintedStep, Walk};
use window::{Kept, Window};

/// How many steps a run has, where the listing has as many.
pub const RUN: usize = 256;

/// A run of a listing: how many of its steps show no instruction, and the offset of its first, in bytes from the image's start.
#[derive(Clone, Copy, Debug, PartialEq, Eq)]
pub struct Run {
    pub count: usize,
    pub offset: usize,
}

impl Run {
    ghost use Rattle.worst_run.specs.Worst.{or_worse};

    // Of a run and a later one, the one with the larger count, or the first.
    fn or_worse(self, later: Run) -> Run
        ensures { result ≡ or_worse self later }
    {
        if later.count <= self.count {
            self
        } else {
            later
        }
    }
}

// Whether a step shows no instruction: its word is refused, or it is `<Undefined>`.
fn is_invalid(step: &UnprintedStep) -> bool
    ensures { result ≡ is_invalid (listed_step step.now).shows }
{
    let bytes = step.image.bytes;
    match step.span {
        Span::Word => arm_print::is_invalid(Form::Sheet, word_at(bytes, step.offset)),
        Span::Half => thumb_print::is_invalid(Form::Sheet, half_at(bytes, step.offset)),
        Span::Pair => false,
    }
}

// What is kept of a step.
fn kept(step: &UnprintedStep) -> Kept
    ensures { result ≡ kept (listed_step step.now) }
{
    Kept {
        invalid: is_invalid(step),
        offset: step.offset,
    }
}

// The worst run of an image: of the runs that end with each of its steps. Those of fewer than 256 steps all begin at 0, and the last of them has the most.
fn worst_in(image: Image) -> Run
    requires { refusal_at image.bytes.now image.stretches.now 0 ≡ Ok tt }
    ensures value { result ≡ worst_of (map run_of (runs 256 (steps image.entry.bytes.now image.entry.stretches.now image.entry.base 0))) }
    ensures follow { Follow 0 (steps image.entry.bytes.now image.entry.stretches.now image.entry.base 0) (length image.entry.bytes.now) }
{
    let mut window = Window::new();
    let mut worst = window.run();
    for step in Walk::new(image, 0) {
        window.push(kept(&step));
        worst = worst.or_worse(window.run());
    }
    worst
}

/// The largest number of steps that show no instruction, over all runs of 256 consecutive steps in a listing of the image from its start, and the offset of the
/// first run that reaches it. A step shows none where its word is refused with 1, 2 or 9, or its line is `<Undefined>`, in ARM and in Thumb; a call pair is one
/// step, and shows one. A listing of fewer than 256 steps is one run; an empty image gives 0 and 0. The base does not matter. Refused with 6 or 7 as the image is.
#[tactic(auto, unfolding(crate::specs::Worst::worst_run))]
pub fn worst_run(image: Image) -> Result<Run, Refusal>
    ensures answer { result ≡ worst_run image.entry.bytes.now image.entry.stretches.now image.entry.base }
    ensures accepted { IsOk result ↔ (refusal image.entry.bytes.now image.entry.stretches.now ≡ Ok tt) }
    ensures any_base { (base : ℕ) → result ≡ worst_run image.entry.bytes.now image.entry.stretches.now base }

    // Which run that is.
    ensures reached { IfOk result (IsReached 256 (steps image.entry.bytes.now image.entry.stretches.now image.entry.base 0)) }
    ensures most { IfOk result (HasMost 256 (steps image.entry.bytes.now image.entry.stretches.now image.entry.base 0)) }
    ensures first { IfOk result (IsFirst 256 (steps image.entry.bytes.now image.entry.stretches.now image.entry.base 0)) }
    ensures small { IfOk result (IsSmall 256 image.entry.bytes.now) }
{
    image.check()?;
    Ok(worst_in(image))
}
