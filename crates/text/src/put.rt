// Writers. Each stores bytes into a lent buffer from a place on, as far as there is room.
ghost use Rattle.std.specs.Prelude.{◌≡◌, cond, [], ◌∷◌, ◌≤◌, ◌<◌, ◌+◌, ◌-◌, ◌/◌, ◌%◌, take, drop, leb};
ghost use Rattle.text.specs.Digits.{digit, digits, hex, dec, prefixed};
ghost use Rattle.text.specs.Puts.{puts};
ghost use Rattle.text.specs.Wrote.{Wrote};

// A lent buffer, and the place of the next byte in it: what `Formatter` and `write!` are in Rust. `Display` was tried: it says what is written only where `fmt`
// answers Ok, so a print that cannot fail could not promise its line, and a line took 2.2 times as long.
#[derive(Drop)]
pub struct Writer<'a> {
    pub bytes: &'a mut [u8],
    pub at: usize,
}

impl<'a> Writer<'a> {
    // One byte.
    #[inline(always)]
    pub fn put_byte(&mut self, b: u8)
        ensures { self.new ≡ puts self.old (b ∷ []) }
    {
        let at = self.at;
        if at < self.bytes.len() {
            self.bytes[at] = b;
            self.at = at + 1;
        }
    }

    // A byte, if it is wanted. Its place is stored to in any case, so that no branch is to be guessed.
    #[inline(always)]
    pub fn put_if(&mut self, wanted: bool, b: u8)
        ensures { self.new ≡ puts self.old (cond wanted (b ∷ []) []) }
    {
        let at = self.at;
        if at < self.bytes.len() {
            let held = self.bytes[at];
            self.bytes[at] = if wanted { b } else { held };
            self.at = at + usize::from(wanted);
        }
    }

    // The bytes of a text, one by one: most texts have two or three, and a copy of so few takes longer.
    #[inline(always)]
    pub fn put_text(&mut self, s: &[u8])
        ensures { self.new ≡ puts self.old s.now }
    {
        for b in s {
            self.put_byte(*b);
        }
    }

    // A number in lowercase hexadecimal, at least w digits.
    #[inline(always)]
    pub fn put_hex(&mut self, w: u32, n: u32)
        ensures { self.new ≡ puts self.old (hex w n) }
    {
        self.at = put_digits::<16>(self.bytes, self.at, 8, w, n);
    }

    // All eight digits of a number in hexadecimal, from the first to the last: no scratch is needed, and an address of the sheet has them.
    #[inline(always)]
    #[tactic(auto, using(crate::proofs::Digits::hex_eight))]
    pub fn put_eight(&mut self, n: u32)
        ensures { self.new ≡ puts self.old (hex 8 n) }
    {
        let digits = [
            last_digit::<16>(n / 0x1000_0000),
            last_digit::<16>(n / 0x100_0000),
            last_digit::<16>(n / 0x10_0000),
            last_digit::<16>(n / 0x1_0000),
            last_digit::<16>(n / 0x1000),
            last_digit::<16>(n / 0x100),
            last_digit::<16>(n / 0x10),
            last_digit::<16>(n),
        ];
        self.put_text(&digits);
    }

    // The same with `0x` before it.
    #[inline(always)]
    pub fn put_0x(&mut self, w: u32, n: u32)
        ensures { self.new ≡ puts self.old (prefixed w n) }
    {
        self.put_text(b"0x");
        self.put_hex(w, n);
    }

    // A number in decimal.
    #[inline(always)]
    pub fn put_dec(&mut self, n: u32)
        ensures { self.new ≡ puts self.old (dec n) }
    {
        self.at = put_digits::<10>(self.bytes, self.at, 10, 1, n);
    }
}

/// The bytes of a text into a buffer from a place on, as far as there is room: the place behind them.
#[tactic(auto, unfolding(crate::specs::Puts::puts))]
pub fn put_text_at(buf: &mut [u8], at: usize, s: &[u8]) -> usize
    ensures { Wrote buf.old at s.now buf.new result }
{
    let mut out = Writer { bytes: buf, at };
    out.put_text(s);
    out.at
}

// The digits of a number in a base, at least w of them, at most k, into a buffer from a place on: the place behind them. From the last to the first into a
// scratch. It takes no writer: one that is lent on lies in memory, and each byte that is put loads and stores its place there. Tried by a recursion, as the
// definition goes, which is plainer: a line with two numbers took twice as long.
#[inline(never)]
fn put_digits<const BASE: u32>(buf: &mut [u8], at: usize, k: usize, w: u32, n: u32) -> usize
    requires { (1 < BASE) × (BASE ≤ 16) × (k ≤ 10) }
    ensures { Wrote buf.old at (digits BASE k w n) buf.new result }
{
    let mut scratch = [0u8; 10];
    let mut first = k;
    let mut wide = w;
    let mut rest = n;
    for i in (0..k).rev() {
        if rest as u64 + wide as u64 == 0 {
            break;
        }
        scratch[i] = last_digit::<BASE>(rest);
        wide = wide.saturating_sub(1);
        rest /= BASE;
        first = i;
    }
    put_text_at(buf, at, &scratch[first..k])
}

// Whether a buffer of a length has room for n bytes from a place on.
pub fn has_room(length: usize, at: usize, n: usize) -> bool
    ensures { result ≡ leb (at + n) length }
{
    at <= length && n <= length - at
}

// The last digit of a number.
fn last_digit<const BASE: u32>(n: u32) -> u8
    requires { (0 < BASE) × (BASE ≤ 16) }
    ensures { result ≡ digit (n % BASE) }
{
    let names = b"0123456789abcdef";
    names[(n % BASE) as usize]
}

// The w bytes of a text that stand from a place on, or as many of them as there are.
pub fn part(s: &[u8], from: usize, w: usize) -> &[u8]
    ensures { result.now ≡ take w (drop from s.now) }
{
    let rest = &s[from.min(s.len())..];
    &rest[..w.min(rest.len())]
}
