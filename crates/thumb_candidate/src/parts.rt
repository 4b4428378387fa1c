// What is taken from a line once, for all its candidates.
ghost use Rattle.std.specs.Prelude.{◌≡◌};
ghost use Rattle.thumb_candidate.specs.Taken.{Taken};

use arm7tdmi::Form;
use reading::parts::register;
use text::read::next_word;

/// The registers that words 1, 2 and 3 of a line name, or 16.
#[derive(Clone, Copy, Debug, PartialEq, Eq)]
pub struct Regs {
    pub first: u8,
    pub second: u8,
    pub third: u8,
}

// What is looked for: a line, in a form, at an address; the line from its words 1, 2 and 3 on, and the registers that these name, or 16.
#[derive(Clone, Copy, Debug, PartialEq, Eq)]
pub struct Sought<'a> {
    pub form: Form,
    pub pc: u32,
    pub line: &'a [u8],
    pub one: &'a [u8],
    pub two: &'a [u8],
    pub three: &'a [u8],
    pub first: u8,
    pub second: u8,
    pub third: u8,
    ghost taken: { Taken line.now one.now two.now three.now first second third },
}

impl<'a> Sought<'a> {
    pub fn new(form: Form, pc: u32, line: &'a [u8]) -> Self
        ensures { (result.form ≡ form) × (result.pc ≡ pc) × (result.line.now ≡ line.now) }
    {
        let one = next_word(line);
        let two = next_word(one);
        let three = next_word(two);
        Sought {
            form,
            pc,
            line,
            one,
            two,
            three,
            first: register(one),
            second: register(two),
            third: register(three),
        }
    }
}
