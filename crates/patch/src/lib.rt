// A patch: one word of a lent image, read from its sheet line and overwritten.
#![tactic(auto)]

ghost use Rattle.std.specs.Prelude.{◌≡◌, ◌+◌, ◌≤◌, length};
ghost use Rattle.std.specs.List.{splice};
ghost use Rattle.image.specs.Refusal.{unit};
ghost use Rattle.patch.specs.Patch.{patch_refusal, patched_in, patched};

use arm_read::read_arm;
use arm7tdmi::Form;
use image::{Image, Set};
use refusal::Refusal;
use steps::address;
use thumb_read::read_thumb;

// Stores bytes from a place on.
fn put_bytes<const N: usize>(image: &mut [u8], at: usize, bytes: [u8; N])
    requires { at + N ≤ length image.old }
    ensures { image.new ≡ splice image.old at (at + N) bytes.entry }
{
    image[at..at + N].copy_from_slice(&bytes);
}

// Whether a patch is refused whatever its line is: 6, 7 or 8.
#[tactic(auto, unfolding(crate::specs::Patch::patch_refusal))]
fn check(image: Image, at: usize) -> Result<(), Refusal>
    ensures { result ≡ patch_refusal image.entry.bytes.now image.entry.stretches.now at }
{
    image.check_place(at)?;
    if image.bytes.len() <= at {
        return Err(Refusal::WrongPlace);
    }
    Ok(())
}

// Overwrites the word at a place, by the set there, with the one that a line reads as at an address; 4 where there is none.
fn overwrite(image: &mut [u8], s: Set, pc: u32, at: usize, line: &[u8]) -> Result<(), Refusal>
    requires { at + unit s ≤ length image.old }
    ensures { patched_in image.old s pc at line.now ≡ (result, image.new) }
{
    match s {
        Set::Arm => {
            let word = read_arm(Form::Sheet, pc, line).ok_or(Refusal::NoWord)?;
            put_bytes(image, at, word.to_le_bytes());
        }
        Set::Thumb(_) => {
            let half = read_thumb(Form::Sheet, pc, line).ok_or(Refusal::NoWord)?;
            put_bytes(image, at, half.to_le_bytes());
        }
    }
    Ok(())
}

// Patches the word at a place of an image by its sheet line; where that is refused, with 6, 7, 8 or 4, the image keeps its bytes. Its parts come one by one,
// as an `Image` shares the bytes that are lent to be written here.
#[tactic(auto, unfolding(crate::specs::Patch::patched))]
pub fn patch(
    bytes: &mut [u8],
    stretches: &[u8],
    base: u32,
    at: usize,
    line: &[u8],
) -> Result<(), Refusal>
    ensures { patched bytes.old stretches.now base at line.now ≡ (result, bytes.new) }
{
    let image = Image {
        bytes,
        stretches,
        base,
    };
    check(image, at)?;
    let s = image.set_at(0, at);
    overwrite(bytes, s, address(base, at), at, line)
}
