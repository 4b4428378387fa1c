// The flags of the program status register.
ghost use Rattle.std.specs.Prelude.{◌≡◌};
ghost use Rattle.common.specs.Bits.{bit};

use crate::bit::bit;

#[derive(Clone, Copy, Debug, PartialEq, Eq)]
pub struct RegPSR {
    pub raw: u32,
}

// The flags have the Rust's names, and are one expression each.
impl RegPSR {
    pub fn new(u: u32) -> Self
        ensures { result.raw ≡ u }
    {
        RegPSR { raw: u }
    }

    pub fn N(self) -> bool
        ensures { result ≡ bit self.raw 31 }
    {
        bit(self.raw, 31)
    }

    pub fn Z(self) -> bool
        ensures { result ≡ bit self.raw 30 }
    {
        bit(self.raw, 30)
    }

    pub fn C(self) -> bool
        ensures { result ≡ bit self.raw 29 }
    {
        bit(self.raw, 29)
    }

    pub fn V(self) -> bool
        ensures { result ≡ bit self.raw 28 }
    {
        bit(self.raw, 28)
    }
}
