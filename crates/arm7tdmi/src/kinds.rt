// Tables of kinds: a word has the kind of the first row that it meets.
ghost use Rattle.std.specs.Prelude.{◌≡◌};
ghost use Rattle.arm7tdmi.specs.Kinds.{row, first_row};

// A word meets a row if its bits under the mask are the value.
#[derive(Clone, Copy, Debug, PartialEq, Eq)]
pub struct Row<K> {
    pub mask: u32,
    pub value: u32,
    pub kind: K,
}

impl<K> Row<K> {
    pub const fn new(mask: u32, value: u32, kind: K) -> Self
        ensures { result ≡ row mask value kind }
    {
        Row { mask, value, kind }
    }
}

// The kind of the first row that a word meets, or another if it meets none: from the last row up, so that the compiler knows each row as a constant.
pub fn first_match<K: Copy, const N: usize>(rows: [Row<K>; N], raw: u32, other: K) -> K
    ensures { result ≡ first_row other rows raw }
{
    let mut kind = other;
    for row in rows.iter().rev() {
        if raw & row.mask == row.value {
            kind = row.kind;
        }
    }
    kind
}
