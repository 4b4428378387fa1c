// The operations for callers in C: thin calls of the proved ones. Each has the contract of the operation that it calls. C has no generic functions, so those of
// ARM and of Thumb are two; and what C lends comes in parameters of its own, with what is answered behind pointers.
#![tactic(auto)]

ghost use Rattle.std.specs.Prelude.{◌≡◌, ℕ};
ghost use Rattle.lines.specs.Answer.{printed};
ghost use Rattle.arm.specs.Kinds.{arm_format, arm_number};
ghost use Rattle.thumb.specs.Kinds.{thumb_format, thumb_number};
ghost use Rattle.thumb_top.specs.Top.{top_kind};
ghost use Rattle.arm_print.specs.Print.{arm_line};
ghost use Rattle.arm_read.specs.Answer as Arm;
ghost use Rattle.thumb_read.specs.Answer as Thumb;
ghost use Rattle.thumb_print.specs.Print.{thumb_line};
ghost use Rattle.pairs.specs.Print.{pair_line};
ghost use Rattle.pairs.specs.Read as Pair;
ghost use Rattle.pairs.specs.Run.{pairing_index, pairing_number, unpaired};
ghost use Rattle.steps.specs.Listed.{list_step};
ghost use Rattle.patch.specs.Patch.{patched};
ghost use Rattle.step_offsets.specs.Offsets.{offsets_numbers, step_offsets};
ghost use Rattle.worst_run.specs.Worst.{run_numbers, worst_run};
ghost use Rattle.line_address.specs.Shown.{address_numbers, arm_address, pair_address, thumb_address};
ghost use Rattle.modestsilk.specs.Numbers.{form_of, given, numbers_of, offsets_given, patched_numbers, printed_numbers, refusal_number, written};

use arm::arm_format;
use arm_print::print_arm;
use arm_read::read_arm;
use arm7tdmi::Form;
use image::Image;
use line_address::{arm_address, pair_address, thumb_address};
use pairs::print::print_pair;
use pairs::read::read_pair;
use pairs::run::unpaired;
use patch::patch;
use refusal::Refusal;
use step_offsets::{MOST_ADDRESSES, NO_OFFSET, step_offsets};
use steps::list_step;
use thumb::thumb_format;
use thumb_print::print_thumb;
use thumb_read::read_thumb;
use thumb_top::top_kind;
use worst_run::worst_run;

// The form of a number: 0 is the bench, any other the sheet. That is what C says by a number, so it is no conversion of `Form` itself.
fn form_of(n: u32) -> Form
    ensures { result ≡ form_of n }
{
    if n == 0 { Form::Bench } else { Form::Sheet }
}

// The number of a refusal, or 0 for none.
fn refusal_number(refusal: Option<Refusal>) -> u32
    ensures { result ≡ refusal_number refusal }
{
    refusal.map_or(0, u32::from)
}

// What an operation answers, behind a pointer: a value, or the one that stands for none; and the refusal's number, or 0.
fn give<T: Copy>(answer: Result<T, Refusal>, none: T, value: &mut T) -> u32
    ensures { given none answer ≡ (result, value.new) }
{
    *value = answer.unwrap_or(none);
    refusal_number(answer.err())
}

// An image that C lends: its bytes, its Thumb stretches and the address of its first byte.
fn lent_image<'a>(image: &'a [u8], stretches: &'a [u8], base: u32) -> Image<'a>
    ensures bytes { result.bytes.now ≡ image.now }
    ensures stretches { result.stretches.now ≡ stretches.now }
    ensures base { result.base ≡ base }
{
    Image {
        bytes: image,
        stretches,
        base,
    }
}

// The number of the kind of an ARM word.
#[unsafe(no_mangle)]
pub extern "C" fn silk_kind_arm(form: u32, word: u32) -> u32
    ensures { result ≡ arm_number (arm_format (form_of form) word) }
{
    let fmt = arm_format(form_of(form), word);
    u32::from(fmt)
}

// The number of the kind of a Thumb word.
#[unsafe(no_mangle)]
pub extern "C" fn silk_kind_thumb(form: u32, word: u16) -> u32
    ensures { result ≡ thumb_number (thumb_format (form_of form) word) }
{
    let fmt = thumb_format(form_of(form), word);
    u32::from(fmt)
}

// The number of the kind of the Thumb words with a top byte.
#[unsafe(no_mangle)]
pub extern "C" fn silk_kind_thumb_top(form: u32, top: u8) -> u32
    ensures { result ≡ thumb_number (top_kind (form_of form) top) }
{
    let fmt = top_kind(form_of(form), top);
    u32::from(fmt)
}

// The line of an ARM word into a buffer, its length behind the pointer; the answer is the refusal's number, or 0.
#[unsafe(no_mangle)]
pub extern "C" fn silk_print_arm(
    form: u32,
    word: u32,
    address: u32,
    line: &mut [u8],
    length: &mut usize,
) -> u32
    ensures { printed_numbers (printed (arm_line (form_of form) address word) line.old) ≡ (result, length.new, line.new) }
{
    give(print_arm(form_of(form), word, address, line), 0, length)
}

// The same for a Thumb word.
#[unsafe(no_mangle)]
pub extern "C" fn silk_print_thumb(
    form: u32,
    word: u16,
    address: u32,
    line: &mut [u8],
    length: &mut usize,
) -> u32
    ensures { printed_numbers (printed (thumb_line (form_of form) address word) line.old) ≡ (result, length.new, line.new) }
{
    give(print_thumb(form_of(form), word, address, line), 0, length)
}

// The lowest ARM word that prints a line at an address, behind the pointer; the answer is 0, or 4 with word 0 where there is none.
#[unsafe(no_mangle)]
pub extern "C" fn silk_read_arm(form: u32, address: u32, line: &[u8], word: &mut u32) -> u32
    ensures { (result ≡ Arm.read_number (Arm.read_answer (form_of form) address line.now)) × (word.new ≡ Arm.read_word (Arm.read_answer (form_of form) address line.now)) }
{
    let read = read_arm(form_of(form), address, line);
    give(read.ok_or(Refusal::NoWord), 0, word)
}

// The same for a Thumb word.
#[unsafe(no_mangle)]
pub extern "C" fn silk_read_thumb(form: u32, address: u32, line: &[u8], word: &mut u16) -> u32
    ensures { (result ≡ Thumb.read_number (Thumb.read_answer (form_of form) address line.now)) × (word.new ≡ Thumb.read_word (Thumb.read_answer (form_of form) address line.now)) }
{
    let read = read_thumb(form_of(form), address, line);
    give(read.ok_or(Refusal::NoWord), 0, word)
}

// The sheet line of a call pair into a buffer, its length behind the pointer; the answer is 0, 5 where the halfwords are no pair, or 3.
#[unsafe(no_mangle)]
pub extern "C" fn silk_print_pair(
    first: u16,
    second: u16,
    address: u32,
    line: &mut [u8],
    length: &mut usize,
) -> u32
    ensures { printed_numbers (printed (pair_line address first second) line.old) ≡ (result, length.new, line.new) }
{
    give(print_pair(first, second, address, line), 0, length)
}

// The pair that prints a line at an address, behind the pointers; the answer is 0, or 4 with both halves 0 where there is none.
#[unsafe(no_mangle)]
pub extern "C" fn silk_read_pair(
    address: u32,
    line: &[u8],
    first: &mut u16,
    second: &mut u16,
) -> u32
    ensures { (result ≡ Pair.read_number (Pair.pair_answer address line.now)) × (first.new ≡ Pair.read_first (Pair.pair_answer address line.now)) × (second.new ≡ Pair.read_second (Pair.pair_answer address line.now)) }
{
    let read = read_pair(address, line);
    let (a, b) = read.unwrap_or((0, 0));
    *first = a;
    *second = b;
    refusal_number(read.ok_or(Refusal::NoWord).err())
}

// The earliest half of a run that lacks its partner: 1 with its index behind the pointer, or 0 with index 0 where all are paired.
#[unsafe(no_mangle)]
pub extern "C" fn silk_unpaired(halfwords: &[u16], index: &mut usize) -> u32
    ensures { (result ≡ pairing_number (unpaired halfwords.now)) × (index.new ≡ pairing_index (unpaired halfwords.now)) }
{
    let found = unpaired(halfwords);
    *index = found.unwrap_or(0);
    u32::from(found.is_some())
}

// One step of the listing of an image at a place: its line into a buffer; offset, byte length and the line's length behind the pointers. The answer is the
// refusal's number, or 0, which with byte length 0 is the end mark.
#[unsafe(no_mangle)]
pub extern "C" fn silk_list_step(
    image: &[u8],
    stretches: &[u8],
    base: u32,
    place: u32,
    line: &mut [u8],
    offset: &mut u32,
    bytes: &mut u32,
    length: &mut usize,
) -> u32
    ensures { numbers_of (list_step image.now stretches.now base place line.old) ≡ (result, offset.new, bytes.new, length.new, line.new) }
{
    let lent = lent_image(image, stretches, base);
    match list_step(lent, place as usize, line) {
        Ok(s) => {
            *offset = s.offset() as u32;
            *bytes = s.bytes() as u32;
            *length = s.length();
            refusal_number(s.refusal())
        }
        Err(refusal) => {
            *offset = 0;
            *bytes = 0;
            *length = 0;
            u32::from(refusal)
        }
    }
}

// Patches the word at an offset of an image by its sheet line; the answer is 0, or 6, 7, 8 or 4 and the image keeps its bytes.
#[unsafe(no_mangle)]
pub extern "C" fn silk_patch(
    image: &mut [u8],
    stretches: &[u8],
    base: u32,
    offset: u32,
    line: &[u8],
) -> u32
    ensures { patched_numbers (patched image.old stretches.now base offset line.now) ≡ (result, image.new) }
{
    refusal_number(patch(image, stretches, base, offset as usize, line).err())
}

// Writes values to the start of a lent list of numbers, as far as there is room: one by one, as a copy would make the library need C's `memcpy`.
fn write(values: &[u32], lent: &mut [u32])
    ensures { lent.new ≡ written values.now lent.old }
{
    for i in 0..values.len() {
        if i < lent.len() {
            lent[i] = values[i];
        }
    }
}

/// For each address the offset of the step, in a listing of the image from its start, that it lies in: 64 numbers, written as far as there is room. The answer
/// is 0, or 6, 7, 10 or 11, and then no number is an offset.
#[unsafe(no_mangle)]
pub extern "C" fn silk_steps_at(
    image: &[u8],
    stretches: &[u8],
    base: u32,
    addresses: &[u32],
    offsets: &mut [u32],
) -> u32
    ensures { offsets_given (offsets_numbers (step_offsets image.now stretches.now base addresses.now)) offsets.old ≡ (result, offsets.new) }
{
    let lent = lent_image(image, stretches, base);
    let none = [NO_OFFSET; MOST_ADDRESSES];
    let mut values = none;
    let number = give(step_offsets(lent, addresses), none, &mut values);
    write(&values, offsets);
    number
}

/// The largest number of steps that show no instruction, over all runs of 256 consecutive steps in a listing of the image from its start, and the offset of the
/// first run that reaches it, behind the pointers. The answer is 0, or 6 or 7 with both numbers 0.
#[unsafe(no_mangle)]
pub extern "C" fn silk_worst_run(
    image: &[u8],
    stretches: &[u8],
    count: &mut u32,
    offset: &mut u32,
) -> u32
    ensures { (base : ℕ) → run_numbers (worst_run image.now stretches.now base) ≡ (result, count.new, offset.new) }
{
    match worst_run(lent_image(image, stretches, 0)) {
        Ok(run) => {
            *count = run.count as u32;
            *offset = run.offset as u32;
            0
        }
        Err(refusal) => {
            *count = 0;
            *offset = 0;
            u32::from(refusal)
        }
    }
}

// The address that a line shows, behind a pointer: 1, or 0 with address 0 where it shows none.
fn give_address(address: Option<u32>, shown: &mut u32) -> u32
    ensures { address_numbers address ≡ (result, shown.new) }
{
    *shown = address.unwrap_or(0);
    u32::from(address.is_some())
}

/// The address that the sheet line of an ARM word at an address shows, behind the pointer: 1, or 0 with address 0 where the line shows none or the word is refused.
#[unsafe(no_mangle)]
pub extern "C" fn silk_address_arm(word: u32, address: u32, shown: &mut u32) -> u32
    ensures { address_numbers (arm_address address word) ≡ (result, shown.new) }
{
    give_address(arm_address(word, address), shown)
}

/// The same for a Thumb halfword, of which none is refused; the line of a lone call half shows no address.
#[unsafe(no_mangle)]
pub extern "C" fn silk_address_thumb(word: u16, address: u32, shown: &mut u32) -> u32
    ensures { address_numbers (thumb_address address word) ≡ (result, shown.new) }
{
    give_address(thumb_address(word, address), shown)
}

/// The same for the line of a call pair: where the call goes. 0 with address 0 where the halfwords are no pair.
#[unsafe(no_mangle)]
pub extern "C" fn silk_address_pair(first: u16, second: u16, address: u32, shown: &mut u32) -> u32
    ensures { address_numbers (pair_address address first second) ≡ (result, shown.new) }
{
    give_address(pair_address(first, second, address), shown)
}
