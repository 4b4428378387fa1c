// The worked listings, patches, addresses and worst runs. Each row of standard input is shown on standard output, with what it gives under it.
//
// A row of a listing has, with spaces between them: the base and the place, in hexadecimal; how many bytes of buffer are lent; how often the bytes of the
// image are repeated; these bytes, and those of the list of stretches, in hexadecimal, or none; and a title. A step is shown by its offset, its byte length
// and its line, or ! and a refusal's number, or end. Where a step is refused with 3, the buffer has 80 bytes from then on.
//
// The rows under it go on with that image. `patch`, an offset of eight digits and a sheet line: shown by the patch's number, and all bytes of the image then.
// `resume`, an offset and a title: shown by the steps from there on. `find` and some addresses of eight digits each: shown by 0 and the offset of the step that
// each lies in, or none, or by ! and a refusal's number. `worst`: shown by 0, the count and the offset of the worst run, or by ! and a refusal's number.
#![tactic(auto, unfolding(text::specs::Puts::puts))]

ghost use Rattle.std.specs.Prelude.{◌≡◌, ◌≤◌};

use image::Image;
use input::read_full;
use lines::LINE;
use patch::patch;
use refusal::Refusal;
use std::io;
use step_offsets::{MOST_ADDRESSES, NO_OFFSET, step_offsets};
use steps::{Listed, list_step};
use text::put::{Writer, part};
use text::read::{first_word, has, next_word, read_number};
use worst_run::worst_run;

// Room for the longest image of the cases, and for what a case shows.
const IMAGE: usize = 65540;

const SHOWN: usize = 4096;

const TABLE: usize = 16384;

// Room for one address more than are answered.
const ADDRESSES: usize = MOST_ADDRESSES + 1;

// A row of the table, by its first word: a patch by a p in it and a resumed listing by an r, as no number in hexadecimal has them.
#[derive(Clone, Copy, Debug, PartialEq, Eq)]
enum Row<'a> {
    // the base and the place, how many bytes are lent, how often the bytes of the image are repeated, the digits of these, and those of the stretches
    Listing {
        base: u32,
        place: usize,
        room: usize,
        times: usize,
        image: &'a [u8],
        stretches: &'a [u8],
    },
    // the offset and the line
    Patch {
        at: usize,
        line: &'a [u8],
    },
    // the place
    Resume {
        place: usize,
    },
    // the digits of the addresses
    Find {
        addresses: &'a [u8],
    },
    Worst,
}

impl<'a> Row<'a> {
    fn read(row: &'a [u8]) -> Row<'a> {
        let rest = next_word(row);
        let place = read_number::<16>(first_word(rest)) as usize;
        match first_word(row) {
            b"find" => Row::Find { addresses: rest },
            b"worst" => Row::Worst,
            word if has(word, b'p') => Row::Patch {
                at: place,
                line: part(row, 15, row.len()),
            },
            word if has(word, b'r') => Row::Resume { place },
            base => Row::listing(base, place, next_word(rest)),
        }
    }

    // A row of a listing, from its third word on.
    fn listing(base: &[u8], place: usize, rest: &'a [u8]) -> Row<'a> {
        let times = next_word(rest);
        let image = next_word(times);
        Row::Listing {
            base: read_number::<16>(base),
            place,
            room: read_number::<10>(first_word(rest)) as usize,
            times: read_number::<10>(first_word(times)) as usize,
            image: first_word(image),
            stretches: first_word(next_word(image)),
        }
    }
}

// Writes the bytes that digits say to the start of a buffer, so often, as far as there is room, and answers how many there are then. There are none for `none`,
// which has an n, as no digits have.
fn fill(buf: &mut [u8], digits: &[u8], times: usize) -> usize {
    let size = buf.len();
    let mut out = Writer { bytes: buf, at: 0 };
    if digits.len() < 2 || has(digits, b'n') {
        return 0;
    }
    for _ in 0..times {
        if size <= out.at {
            break;
        }
        for pair in digits.chunks_exact(2) {
            out.put_byte((read_number::<16>(pair) % 256) as u8);
        }
    }
    out.at
}

// Bytes in a buffer of fixed size, with their number, like `row`'s `Begun`: no heap is used.
#[derive(Drop)]
struct Held<const N: usize> {
    buf: [u8; N],
    length: usize,
    ghost fits: { length ≤ N },
}

impl<const N: usize> Held<N> {
    fn new() -> Self {
        Held {
            buf: [0; N],
            length: 0,
        }
    }

    fn fill(&mut self, digits: &[u8], times: usize) {
        self.length = fill(&mut self.buf, digits, times).min(N);
    }

    fn bytes(&self) -> &[u8] {
        &self.buf[..self.length]
    }

    // The buffer is taken as a slice first: the proof does not index an array whose length is a parameter.
    fn bytes_mut(&mut self) -> &mut [u8] {
        let n = self.length;
        let buf = &mut self.buf;
        let all = &mut buf[..];
        &mut all[..n]
    }
}

// The image of a listing, which the rows under it go on with.
#[derive(Drop)]
struct Case {
    base: u32,
    image: Held<IMAGE>,
    stretches: Held<SHOWN>,
}

impl Case {
    fn new() -> Self {
        Case {
            base: 0,
            image: Held::new(),
            stretches: Held::new(),
        }
    }

    fn lent(&self) -> Image<'_> {
        Image {
            bytes: self.image.bytes(),
            stretches: self.stretches.bytes(),
            base: self.base,
        }
    }

    fn patch(&mut self, at: usize, line: &[u8]) -> Result<(), Refusal> {
        let stretches = self.stretches.bytes();
        patch(self.image.bytes_mut(), stretches, self.base, at, line)
    }
}

// An offset and a byte length, with a space behind each. A writer that is lent on keeps the buffer that it was made of: the check wants that said, here and of
// each function below that is lent one.
fn put_place(out: &mut Writer<'_>, offset: usize, bytes: usize)
    ensures { out.new.bytes.ghost_name ≡ out.old.bytes.ghost_name }
{
    out.put_dec((offset % 0x1_0000_0000) as u32);
    out.put_byte(b' ');
    out.put_dec((bytes % 0x1_0000_0000) as u32);
    out.put_byte(b' ');
}

// `!` and a refusal's number, as a line. (That of `row` is no line: its caller ends the row.)
fn put_refusal(out: &mut Writer<'_>, refusal: Refusal)
    ensures { out.new.bytes.ghost_name ≡ out.old.bytes.ghost_name }
{
    out.put_byte(b'!');
    out.put_dec(u32::from(refusal));
    out.put_byte(b'\n');
}

// What a step answers, as a line of text.
fn put_step(out: &mut Writer<'_>, s: Listed, line: &[u8; LINE])
    ensures { out.new.bytes.ghost_name ≡ out.old.bytes.ghost_name }
{
    put_place(out, s.offset(), s.bytes());
    match s {
        Listed::Line(_, _, length) => {
            out.put_text(part(line, 0, length));
            out.put_byte(b'\n');
        }
        Listed::Refused(refusal, _, _) => put_refusal(out, refusal),
        Listed::NoRoom(_) => put_refusal(out, Refusal::NoRoom),
        Listed::End(_) => out.put_text(b"end\n"),
    }
}

// All steps from a place on, at most 64.
fn put_steps(out: &mut Writer<'_>, image: Image, place: usize, room: usize)
    ensures { out.new.bytes.ghost_name ≡ out.old.bytes.ghost_name }
{
    let mut line = [0u8; LINE];
    let mut lent = room;
    let mut at = place;
    for _ in 0..64 {
        match list_step(image, at, &mut line[..lent.min(LINE)]) {
            Ok(s) => {
                put_step(out, s, &line);
                at = at.wrapping_add(s.bytes());
                match s {
                    Listed::NoRoom(_) => lent = LINE,
                    Listed::End(_) => break,
                    _ => {}
                }
            }
            Err(refusal) => {
                put_place(out, 0, 0);
                put_refusal(out, refusal);
                break;
            }
        }
    }
}

// Bytes, as two digits each, or none.
fn put_bytes(out: &mut Writer<'_>, bytes: &[u8])
    ensures { out.new.bytes.ghost_name ≡ out.old.bytes.ghost_name }
{
    if bytes.is_empty() {
        out.put_text(b"none");
    }
    for b in bytes {
        out.put_hex(2, u32::from(*b));
    }
}

// A patch's number, and the image then, as a line.
fn put_patch(out: &mut Writer<'_>, patched: Result<(), Refusal>, image: &[u8])
    ensures { out.new.bytes.ghost_name ≡ out.old.bytes.ghost_name }
{
    out.put_dec(patched.err().map_or(0, u32::from));
    out.put_byte(b' ');
    put_bytes(out, image);
    out.put_byte(b'\n');
}

// Some addresses, with a space between them, into a buffer; answers how many there are, at most as many as there is room for.
fn read_addresses(addresses: &mut [u32; ADDRESSES], digits: &[u8]) -> usize
    ensures { result ≤ 65 }
{
    if digits.is_empty() {
        return 0;
    }
    let words = digits.split(|byte| *byte == b' ');
    for (address, word) in addresses.iter_mut().zip(words) {
        *address = read_number::<16>(word);
    }
    digits.split(|byte| *byte == b' ').count().min(ADDRESSES)
}

// The offsets of so many addresses, or a refusal, as a line.
fn put_offsets(out: &mut Writer<'_>, found: Result<[u32; MOST_ADDRESSES], Refusal>, count: usize)
    ensures { out.new.bytes.ghost_name ≡ out.old.bytes.ghost_name }
{
    match found {
        Ok(offsets) => {
            out.put_byte(b'0');
            for offset in offsets.iter().take(count) {
                put_offset(out, *offset);
            }
            out.put_byte(b'\n');
        }
        Err(refusal) => put_refusal(out, refusal),
    }
}

// An offset, or none, behind a space.
fn put_offset(out: &mut Writer<'_>, offset: u32)
    ensures { out.new.bytes.ghost_name ≡ out.old.bytes.ghost_name }
{
    out.put_byte(b' ');
    if offset == NO_OFFSET {
        out.put_text(b"none");
    } else {
        out.put_dec(offset);
    }
}

// The offsets of the steps that some addresses lie in.
fn put_found(out: &mut Writer<'_>, image: Image, digits: &[u8])
    ensures { out.new.bytes.ghost_name ≡ out.old.bytes.ghost_name }
{
    let mut addresses = [0u32; ADDRESSES];
    let count = read_addresses(&mut addresses, digits);
    put_offsets(out, step_offsets(image, &addresses[..count]), count);
}

// The count and the offset of the worst run, or a refusal, as a line.
fn put_worst(out: &mut Writer<'_>, image: Image)
    ensures { out.new.bytes.ghost_name ≡ out.old.bytes.ghost_name }
{
    match worst_run(image) {
        Ok(run) => {
            out.put_text(b"0 ");
            out.put_dec(run.count as u32);
            out.put_byte(b' ');
            out.put_dec(run.offset as u32);
            out.put_byte(b'\n');
        }
        Err(refusal) => put_refusal(out, refusal),
    }
}

// A row, and what it gives under it.
fn put_row(out: &mut Writer<'_>, row: &[u8], case: &mut Case)
    ensures { out.new.bytes.ghost_name ≡ out.old.bytes.ghost_name }
{
    out.put_text(row);
    out.put_byte(b'\n');
    match Row::read(row) {
        Row::Listing {
            base,
            place,
            room,
            times,
            image,
            stretches,
        } => {
            case.base = base;
            case.image.fill(image, times);
            case.stretches.fill(stretches, 1);
            put_steps(out, case.lent(), place, room);
        }
        Row::Patch { at, line } => {
            let patched = case.patch(at, line);
            put_patch(out, patched, case.image.bytes());
        }
        Row::Resume { place } => put_steps(out, case.lent(), place, LINE),
        Row::Find { addresses } => put_found(out, case.lent(), addresses),
        Row::Worst => put_worst(out, case.lent()),
    }
}

// All rows.
fn show_all(rt: &impl Print, table: &[u8]) -> io::Result<()> {
    if table.is_empty() {
        return Ok(());
    }
    let mut case = Case::new();
    let mut shown = [0u8; SHOWN];
    let rows = table.strip_suffix(b"\n").unwrap_or(table);
    for row in rows.split(|byte| *byte == b'\n') {
        let mut out = Writer {
            bytes: &mut shown,
            at: 0,
        };
        put_row(&mut out, row, &mut case);
        let end = out.at;
        rt.write_all(part(&shown, 0, end))?;
    }
    Ok(())
}

fn main(rt: HostRuntime) -> io::Result<()> {
    let mut table = [0u8; TABLE];
    let size = read_full(&mut rt.stdin(), &mut table)?;
    show_all(&rt, part(&table, 0, size))
}
