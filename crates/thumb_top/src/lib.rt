// The kinds of Thumb words by their top byte, as tables: no mask of the rows that `thumb_format` walks over has a bit below 8.
#![tactic(auto)]

ghost use Rattle.std.specs.Prelude.{◌≡◌};
ghost use Rattle.thumb.specs.Kinds.{thumb_format};
ghost use Rattle.thumb_top.specs.Top.{kind_of, table, top_kind};

use arm7tdmi::Form;
use thumb::ThumbFormat;

// The numbers of the kinds by top byte: sixteen to a line, whose first byte stands behind it.
const BENCH_KINDS: [u8; 256] = [
    0, 0, 0, 0, 0, 0, 0, 0, 0, 0, 0, 0, 0, 0, 0, 0, // 00
    0, 0, 0, 0, 0, 0, 0, 0, 1, 1, 1, 1, 1, 1, 1, 1, // 10
    2, 2, 2, 2, 2, 2, 2, 2, 2, 2, 2, 2, 2, 2, 2, 2, // 20
    2, 2, 2, 2, 2, 2, 2, 2, 2, 2, 2, 2, 2, 2, 2, 2, // 30
    3, 3, 3, 3, 4, 4, 4, 4, 5, 5, 5, 5, 5, 5, 5, 5, // 40
    6, 6, 7, 7, 6, 6, 7, 7, 6, 6, 7, 7, 6, 6, 7, 7, // 50
    8, 8, 8, 8, 8, 8, 8, 8, 8, 8, 8, 8, 8, 8, 8, 8, // 60
    8, 8, 8, 8, 8, 8, 8, 8, 8, 8, 8, 8, 8, 8, 8, 8, // 70
    9, 9, 9, 9, 9, 9, 9, 9, 9, 9, 9, 9, 9, 9, 9, 9, // 80
    10, 10, 10, 10, 10, 10, 10, 10, 10, 10, 10, 10, 10, 10, 10, 10, // 90
    11, 11, 11, 11, 11, 11, 11, 11, 11, 11, 11, 11, 11, 11, 11, 11, // a0
    12, 19, 19, 19, 13, 13, 19, 19, 19, 19, 19, 19, 13, 13, 19, 19, // b0
    14, 14, 14, 14, 14, 14, 14, 14, 14, 14, 14, 14, 14, 14, 14, 14, // c0
    15, 15, 15, 15, 15, 15, 15, 15, 15, 15, 15, 15, 15, 15, 15, 16, // d0
    17, 17, 17, 17, 17, 17, 17, 17, 19, 19, 19, 19, 19, 19, 19, 19, // e0
    18, 18, 18, 18, 18, 18, 18, 18, 18, 18, 18, 18, 18, 18, 18, 18, // f0
];

// The same for the sheet, where DE is Undefined.
const SHEET_KINDS: [u8; 256] = [
    0, 0, 0, 0, 0, 0, 0, 0, 0, 0, 0, 0, 0, 0, 0, 0, // 00
    0, 0, 0, 0, 0, 0, 0, 0, 1, 1, 1, 1, 1, 1, 1, 1, // 10
    2, 2, 2, 2, 2, 2, 2, 2, 2, 2, 2, 2, 2, 2, 2, 2, // 20
    2, 2, 2, 2, 2, 2, 2, 2, 2, 2, 2, 2, 2, 2, 2, 2, // 30
    3, 3, 3, 3, 4, 4, 4, 4, 5, 5, 5, 5, 5, 5, 5, 5, // 40
    6, 6, 7, 7, 6, 6, 7, 7, 6, 6, 7, 7, 6, 6, 7, 7, // 50
    8, 8, 8, 8, 8, 8, 8, 8, 8, 8, 8, 8, 8, 8, 8, 8, // 60
    8, 8, 8, 8, 8, 8, 8, 8, 8, 8, 8, 8, 8, 8, 8, 8, // 70
    9, 9, 9, 9, 9, 9, 9, 9, 9, 9, 9, 9, 9, 9, 9, 9, // 80
    10, 10, 10, 10, 10, 10, 10, 10, 10, 10, 10, 10, 10, 10, 10, 10, // 90
    11, 11, 11, 11, 11, 11, 11, 11, 11, 11, 11, 11, 11, 11, 11, 11, // a0
    12, 19, 19, 19, 13, 13, 19, 19, 19, 19, 19, 19, 13, 13, 19, 19, // b0
    14, 14, 14, 14, 14, 14, 14, 14, 14, 14, 14, 14, 14, 14, 14, 14, // c0
    15, 15, 15, 15, 15, 15, 15, 15, 15, 15, 15, 15, 15, 15, 19, 16, // d0
    17, 17, 17, 17, 17, 17, 17, 17, 19, 19, 19, 19, 19, 19, 19, 19, // e0
    18, 18, 18, 18, 18, 18, 18, 18, 18, 18, 18, 18, 18, 18, 18, 18, // f0
];

// The table of a form.
fn table(form: Form) -> &'static [u8; 256]
    ensures { result.now ≡ table form }
{
    match form {
        Form::Bench => &BENCH_KINDS,
        Form::Sheet => &SHEET_KINDS,
    }
}

// The kind of a number, in the order of the enum.
#[tactic(auto, unfolding(crate::specs::Top::kind_of))]
fn kind_of(n: u8) -> ThumbFormat
    ensures { result ≡ kind_of n }
{
    match n {
        0 => ThumbFormat::MoveShiftedReg,
        1 => ThumbFormat::AddSub,
        2 => ThumbFormat::DataProcessImm,
        3 => ThumbFormat::AluOps,
        4 => ThumbFormat::HiRegOpOrBranchExchange,
        5 => ThumbFormat::LdrPc,
        6 => ThumbFormat::LdrStrRegOffset,
        7 => ThumbFormat::LdrStrSHB,
        8 => ThumbFormat::LdrStrImmOffset,
        9 => ThumbFormat::LdrStrHalfWord,
        10 => ThumbFormat::LdrStrSp,
        11 => ThumbFormat::LoadAddress,
        12 => ThumbFormat::AddSp,
        13 => ThumbFormat::PushPop,
        14 => ThumbFormat::LdmStm,
        15 => ThumbFormat::BranchConditional,
        16 => ThumbFormat::Swi,
        17 => ThumbFormat::Branch,
        18 => ThumbFormat::BranchLongWithLink,
        _ => ThumbFormat::Undefined,
    }
}

// The kind of the words with a top byte.
#[tactic(auto, using(crate::proofs::Top::entry_right))]
pub fn top_kind(form: Form, top: u8) -> ThumbFormat
    ensures { result ≡ top_kind form top }
{
    kind_of(table(form)[usize::from(top)])
}

// The kind of a word, by its top byte alone.
#[tactic(auto, using(crate::proofs::Top::by_top))]
pub fn word_kind(form: Form, raw: u16) -> ThumbFormat
    ensures { result ≡ thumb_format form raw }
{
    top_kind(form, (raw >> 8) as u8)
}
