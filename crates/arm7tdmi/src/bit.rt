// The Rust's `bit(n)` and `bit_range(a..b)`. All take 32 bits: a word of 16 is widened.
ghost use Rattle.std.specs.Prelude.{◌≡◌, ◌/◌, ◌%◌, ◌^◌};
ghost use Rattle.common.specs.Bits.{bit, bit_range};

// A power of two; 0 where it has no room in 32 bits.
pub fn pow2(n: u32) -> u32
    ensures { result ≡ 2 ^ n % 2 ^ 32 }
{
    1u32.checked_shl(n).unwrap_or(0)
}

// The bits from n on.
fn high(raw: u32, n: u32) -> u32
    ensures { result ≡ raw / 2 ^ n }
{
    raw.checked_shr(n).unwrap_or(0)
}

// The lowest n bits.
fn low(raw: u32, n: u32) -> u32
    ensures { result ≡ raw % 2 ^ n }
{
    raw.checked_rem(pow2(n)).unwrap_or(raw)
}

// Bit n.
pub fn bit(raw: u32, n: u32) -> bool
    ensures { result ≡ bit raw n }
{
    high(raw, n) % 2 == 1
}

// Bits a up to but without b, as a number.
pub fn bit_range(raw: u32, a: u32, b: u32) -> u32
    ensures { result ≡ bit_range raw a b }
{
    if b < a {
        return 0;
    }
    low(high(raw, a), b - a)
}
