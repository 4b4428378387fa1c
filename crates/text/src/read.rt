// Readers of what the writers write. Each takes any bytes.
ghost use Rattle.std.specs.Prelude.{◌≡◌, ◌+◌, ◌*◌, ◌%◌, ◌^◌, ◌≤◌, ◌<◌, length, get_or};
ghost use Rattle.common.specs.Lists.{first};
ghost use Rattle.text.specs.Digits.{digit_value, value};
ghost use Rattle.text.specs.Word.{is_word, is_gap, word, behind, after, has, packed};

// Whether a byte is a digit or a small letter.
#[tactic(auto, unfolding(crate::specs::Word::is_word))]
pub fn is_word(x: u8) -> bool
    ensures { result ≡ is_word x }
{
    x.is_ascii_digit() || x.is_ascii_lowercase()
}

// How many bytes the word has that the line begins with.
fn word_length(s: &[u8]) -> usize
    ensures { (result ≡ first is_gap s.now) × (result ≤ length s.now) }
{
    s.iter().position(|x| !is_word(*x)).unwrap_or(s.len())
}

// How many bytes stand before the first word. Each of the two is one call: with the test as a parameter, a call would be no shorter.
fn gap_length(s: &[u8]) -> usize
    ensures { (result ≡ first is_word s.now) × (result ≤ length s.now) }
{
    s.iter().position(|x| is_word(*x)).unwrap_or(s.len())
}

// The word that the line begins with.
pub fn first_word(s: &[u8]) -> &[u8]
    ensures { result.now ≡ word s.now }
{
    let n = word_length(s);
    &s[..n]
}

// What stands behind it.
pub fn behind_word(s: &[u8]) -> &[u8]
    ensures { result.now ≡ behind s.now }
{
    let n = word_length(s);
    &s[n..]
}

// What stands from the next word on.
pub fn next_word(s: &[u8]) -> &[u8]
    ensures { result.now ≡ after s.now }
{
    let t = behind_word(s);
    let n = gap_length(t);
    &t[n..]
}

// The value of a digit, and 16 for any other byte: the digit that a byte could be by its low bits, and whether it is that one. No Option: `value` counts
// 16 for such a byte too, so that a number is read without a branch.
pub fn digit_value(x: u8) -> u64
    ensures { (result ≡ digit_value x) × (result < 17) }
{
    let names = b"0123456789abcdef";
    let v = (x % 16 + x / 64 * 9) % 16;
    if names[v as usize] == x {
        return v as u64;
    }
    16
}

// The number, modulo 2^32, that the bytes write in a base.
pub fn read_number<const BASE: u32>(s: &[u8]) -> u32
    ensures { result ≡ value BASE s.now }
{
    s.iter().fold(
        0,
        |v: u32, x: &u8| -> u32
            ensures { result ≡ (v * BASE + digit_value x.now) % 2 ^ 32 }
        { ((v as u64 * BASE as u64 + digit_value(*x)) % 0x1_0000_0000) as u32 },
    )
}

// A text of at most eight bytes, none of them 0, as one number, the first byte lowest; any other text as the highest number, which no name has. No Option:
// the number is looked up among those of names, and that one is not found.
pub fn pack(s: &[u8]) -> u64
    ensures { result ≡ packed s.now }
{
    if 8 < s.len() {
        return u64::MAX;
    }
    if s.contains(&0) {
        return u64::MAX;
    }
    s.iter().rev().fold(0, |v: u64, x| (v << 8) + u64::from(*x))
}

// Where an item stands in a list, or the list's length where it does not: among names, that is the number of none of them.
pub fn index_of<T: PartialEq + Copy>(xs: &[T], x: T) -> usize
    ensures { (result ≡ first (λ y. T.eq y x) xs.now) × (result ≤ length xs.now) }
{
    xs.iter().position(|y| *y == x).unwrap_or(xs.len())
}

// Whether a byte stands in a line.
pub fn has(s: &[u8], mark: u8) -> bool
    ensures { result ≡ has mark s.now }
{
    s.contains(&mark)
}

// An item of a list, or another past its end.
pub fn item_or<T: Copy>(xs: &[T], i: usize, none: T) -> T
    ensures { result ≡ get_or xs.now i none }
{
    xs.get(i).copied().unwrap_or(none)
}
