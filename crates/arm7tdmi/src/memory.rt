// An address: any 32-bit number.
ghost use Rattle.std.specs.Prelude.{◌≡◌};
ghost use Rattle.std.specs.Int.{w32, cast_unsigned};
ghost use Rattle.arm7tdmi.specs.Signed.{moved};

pub type Addr = u32;

// An address so far from another: sums wrap at the top of the address range.
pub fn move_by(address: Addr, by: i32) -> Addr
    ensures { result ≡ moved address (cast_unsigned w32 by) }
{
    address.wrapping_add(by.cast_unsigned())
}
