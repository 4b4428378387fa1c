// Why an operation is refused.
#![tactic(auto)]

ghost use Rattle.std.specs.Prelude.{◌≡◌};
ghost use Rattle.refusal.specs.Refusal.{number};

#[derive(Clone, Copy, Debug, PartialEq, Eq)]
pub enum Refusal {
    // the condition bits are 1111 and the line would show the condition
    NoCondition = 1,
    // a halfword transfer of type 00
    NoTransfer = 2,
    // the lent buffer is shorter than the line
    NoRoom = 3,
    // no word, or no call pair, prints the line
    NoWord = 4,
    // the halfwords are not a first half and then a second
    NoPair = 5,
    // the image has too many bytes, or not a multiple of 4
    WrongImage = 6,
    // the list of Thumb stretches is cut short, or a pair of it is wrong
    WrongStretches = 7,
    // the place is past the image, or no start of a word
    WrongPlace = 8,
    // on the sheet, a test (tst, teq, cmp, cmn) whose S is clear
    NoFlags = 9,
    // there are more than 64 addresses
    TooManyAddresses = 10,
    // the place of an address is below that of the one before it
    UnsortedAddresses = 11,
}

// The number that C and the row program's output know a refusal by; 0 is none of them.
impl From<Refusal> for u32 {
    ghost from_gives = { λ r n. n ≡ number r };

    fn from(refusal: Refusal) -> u32 {
        refusal as u32
    }
}
