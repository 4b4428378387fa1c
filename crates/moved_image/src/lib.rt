//! An image whose code is moved, and what its listing shows there.
#![tactic(auto)]

ghost use Rattle.std.specs.Prelude.{◌≡◌, ◌%◌, ℕ};
ghost use Rattle.arm7tdmi.specs.Signed.{moved};
ghost use Rattle.image.specs.Refusal.{refusal_at};
ghost use Rattle.moved_image.specs.Moved.{RunsRaised, raised_steps, steps_from};

use image::Image;

/// The image `by` bytes further on, modulo 2^32: the same bytes and stretches, with another address for the first byte. It is refused with 6, 7 or 8 as before. Where
/// `by` is a multiple of 4, its listing has the same steps: their offsets, their byte lengths and their refusals stay, and so do all bytes of their lines but the
/// address, which is `by` higher. By other distances that of a Thumb load from pc need not be, since such a load clears bit 1 of where it stands.
#[tactic(auto, using(crate::proofs::Steps::steps_moved, crate::proofs::Run::run_moved))]
pub fn moved_image(image: Image<'_>, by: u32) -> Image<'_>
    ensures bytes { result.bytes.now ≡ image.entry.bytes.now }
    ensures stretches { result.stretches.now ≡ image.entry.stretches.now }
    ensures base { result.base ≡ moved image.entry.base by }
    ensures refused { (offset : ℕ) → refusal_at result.bytes.now result.stretches.now offset ≡ refusal_at image.entry.bytes.now image.entry.stretches.now offset }

    // Its steps from any offset on; and a `Listing` of it, run into any buffer in any number of calls.
    ensures steps { by % 4 ≡ 0 → (from : ℕ) → steps_from result from ≡ raised_steps image.entry by (steps_from image.entry from) }
    ensures run { by % 4 ≡ 0 → RunsRaised image.entry result by }
{
    Image {
        base: image.base.wrapping_add(by),
        ..image
    }
}
