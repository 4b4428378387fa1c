//! The offsets of the steps that the places of many addresses lie in, in one walk over a listing that prints nothing.
#![tactic(auto)]

ghost use Rattle.std.specs.Prelude.{◌≡◌, ◌≤◌, ◌↔◌, ℕ, false, length, map, option_map, slice_get, IfOk, IsOk, Ok};
ghost use Rattle.std.specs.List.Sorted.{IsNonDecreasing};
ghost use Rattle.image.specs.Refusal.{refusal, refusal_at};
ghost use Rattle.steps.specs.Steps.{steps, Follow};
ghost use Rattle.steps.specs.Walk.{listed_step, rest};
ghost use Rattle.step_offsets.specs.Offsets.{falls, offsets, offsets_numbers, place_of, step_offsets, steps_past};
ghost use Rattle.step_offsets.specs.Laws.{GivesAlone, GivesCovering, GivesNoneOutside, GivesNoneWithout, GivesStepInside};

use image::Image;
use refusal::Refusal;
use steps::walk::{UnprintedStep, Walk};

/// How many addresses are answered at most.
pub const MOST_ADDRESSES: usize = 64;

/// What stands for no offset: no image is so long.
pub const NO_OFFSET: u32 = 0xffff_ffff;

// The place of an address: how far it lies behind the base, modulo 2^32.
fn place_of(base: u32, address: u32) -> u32
    ensures { result ≡ place_of base address }
{
    address.wrapping_sub(base)
}

// Whether the place of an address is below that of the one before it.
fn falls(base: u32, addresses: &[u32]) -> bool
    ensures { result ≡ falls 0 (map (place_of base) addresses.now) }
{
    !addresses.is_sorted_by_key(|address| place_of(base, *address))
}

// Passes by the steps that do not end past a place, and answers the step behind them, if there is one: the walk goes on with it.
fn seek<'a>(walk: &mut Walk<'a>, place: usize) -> Option<UnprintedStep<'a>>
    ensures found { option_map listed_step result ≡ slice_get (steps_past place (rest walk.old)) 0 }
    ensures left { rest walk.new ≡ steps_past place (rest walk.old) }
{
    let mut ahead = *walk;
    while let Some(step) = ahead.next() {
        if place < step.end {
            return Some(step);
        }
        *walk = ahead;
    }
    None
}

// The offsets for addresses whose places do not fall.
fn offsets(image: Image, addresses: &[u32]) -> [u32; MOST_ADDRESSES]
    requires fine { refusal_at image.bytes.now image.stretches.now 0 ≡ Ok tt }
    requires few { length addresses.now ≤ 64 }
    requires sorted { falls 0 (map (place_of image.base) addresses.now) ≡ false }
    ensures value { result ≡ offsets image.entry.bytes.now image.entry.stretches.now image.entry.base addresses.now }
    ensures follow { Follow 0 (steps image.entry.bytes.now image.entry.stretches.now image.entry.base 0) (length image.entry.bytes.now) }
{
    let mut offsets = [NO_OFFSET; MOST_ADDRESSES];
    let mut walk = Walk::new(image, 0);
    for (i, address) in addresses.iter().enumerate() {
        let place = place_of(image.base, *address);
        if let Some(step) = seek(&mut walk, place as usize) {
            offsets[i] = step.offset as u32;
        }
    }
    offsets
}

/// For each address the offset of the step, in a listing of the image from its start, that its place lies in: an address in the middle of a word, or in the
/// second half of a call pair, gets the offset of the word or the pair. Offsets are in bytes from the image's start. There are 64 numbers; those of places
/// outside the image, and those without an address, are FFFFFFFF.
///
/// The place of an address is how far it lies behind the base, modulo 2^32; places ascend, and may be equal. Refused, in this order, with 6 or 7 as the
/// image is, with 10 where there are more than 64 addresses, and with 11 where the place of one is below that of the one before it. One walk answers all.
#[tactic(auto, unfolding(crate::specs::Offsets::step_offsets))]
pub fn step_offsets(image: Image, addresses: &[u32]) -> Result<[u32; MOST_ADDRESSES], Refusal>
    ensures answer { result ≡ step_offsets image.entry.bytes.now image.entry.stretches.now image.entry.base addresses.now }
    ensures numbers { offsets_numbers result ≡ offsets_numbers (step_offsets image.entry.bytes.now image.entry.stretches.now image.entry.base addresses.now) }
    ensures accepted { IsOk result ↔ ((refusal image.entry.bytes.now image.entry.stretches.now ≡ Ok tt) × (length addresses.now ≤ 64) × IsNonDecreasing (map (place_of image.entry.base) addresses.now)) }

    // What an answer that is no refusal gives.
    ensures alone { IfOk result (GivesAlone image.entry.bytes.now image.entry.stretches.now image.entry.base addresses.now) }
    ensures covering { IfOk result (GivesCovering (steps image.entry.bytes.now image.entry.stretches.now image.entry.base 0) image.entry.base addresses.now) }
    ensures inside { IfOk result (GivesStepInside (steps image.entry.bytes.now image.entry.stretches.now image.entry.base 0) image.entry.bytes.now image.entry.base addresses.now) }
    ensures outside { IfOk result (GivesNoneOutside image.entry.bytes.now image.entry.base addresses.now) }
    ensures without { IfOk result (GivesNoneWithout addresses.now) }
{
    image.check()?;
    if MOST_ADDRESSES < addresses.len() {
        return Err(Refusal::TooManyAddresses);
    }
    if falls(image.base, addresses) {
        return Err(Refusal::UnsortedAddresses);
    }
    Ok(offsets(image, addresses))
}
