// The mnemonics, and what each says: its family and its bits. A `match`, since an array would be copied at each call.
#![tactic(auto)]

ghost use Rattle.std.specs.Prelude.{map, ◌≡◌, ◌<◌, ◌^◌};
ghost use Rattle.arm_mnemonic.specs.Heads.{stem_names};
ghost use Rattle.arm_mnemonic.specs.Stems.{head_at, is_mnemonic};
ghost use Rattle.common.specs.Lists.{find, place};
ghost use Rattle.text.specs.Word.{packed};

use text::read::pack;

// The words of one kind, and none for a word that is no mnemonic. No `Option`: a line with no mnemonic has a candidate too, that of `<Undefined>`.
#[derive(Clone, Copy, Debug, PartialEq, Eq)]
pub enum Family {
    DataProcessing,
    Branch,
    BranchExchange,
    Transfer,
    BlockTransfer,
    Mrs,
    Msr,
    Multiply,
    MultiplyLong,
    HalfTransfer,
    Swi,
    Swap,
    Nothing,
}

// What a mnemonic says.
#[derive(Clone, Copy, Debug, PartialEq, Eq)]
pub struct Head {
    pub family: Family,
    pub bits: u32,
}

impl Head {
    pub fn is_mnemonic(self) -> bool
        ensures { result ≡ is_mnemonic self }
    {
        !matches!(self.family, Family::Nothing)
    }
}

fn says(family: Family, bits: u32) -> Head
    ensures { result ≡ record { family = family; bits = bits } }
{
    Head { family, bits }
}

// What a packed word says. By a number, of which a `match` is a search by halves; a text would be compared with one name after the other.
#[tactic(auto, unfolding(common::specs::Lists::first, text::specs::Word::packed, crate::specs::Heads::stem_names, crate::specs::Heads::stems))]
fn head_packed(n: u64) -> Head
    ensures { result ≡ head_at (find n (map packed stem_names)) }
{
    match n {
        0x64_6e61 => says(Family::DataProcessing, 0x0000_0000), // and
        0x72_6f65 => says(Family::DataProcessing, 0x0020_0000), // eor
        0x62_7573 => says(Family::DataProcessing, 0x0040_0000), // sub
        0x62_7372 => says(Family::DataProcessing, 0x0060_0000), // rsb
        0x64_6461 => says(Family::DataProcessing, 0x0080_0000), // add
        0x63_6461 => says(Family::DataProcessing, 0x00a0_0000), // adc
        0x63_6273 => says(Family::DataProcessing, 0x00c0_0000), // sbc
        0x63_7372 => says(Family::DataProcessing, 0x00e0_0000), // rsc
        0x74_7374 => says(Family::DataProcessing, 0x0100_0000), // tst
        0x71_6574 => says(Family::DataProcessing, 0x0120_0000), // teq
        0x70_6d63 => says(Family::DataProcessing, 0x0140_0000), // cmp
        0x6e_6d63 => says(Family::DataProcessing, 0x0160_0000), // cmn
        0x72_726f => says(Family::DataProcessing, 0x0180_0000), // orr
        0x76_6f6d => says(Family::DataProcessing, 0x01a0_0000), // mov
        0x63_6962 => says(Family::DataProcessing, 0x01c0_0000), // bic
        0x6e_766d => says(Family::DataProcessing, 0x01e0_0000), // mvn
        0x7364_6e61 => says(Family::DataProcessing, 0x0010_0000), // ands
        0x7372_6f65 => says(Family::DataProcessing, 0x0030_0000), // eors
        0x7362_7573 => says(Family::DataProcessing, 0x0050_0000), // subs
        0x7362_7372 => says(Family::DataProcessing, 0x0070_0000), // rsbs
        0x7364_6461 => says(Family::DataProcessing, 0x0090_0000), // adds
        0x7363_6461 => says(Family::DataProcessing, 0x00b0_0000), // adcs
        0x7363_6273 => says(Family::DataProcessing, 0x00d0_0000), // sbcs
        0x7363_7372 => says(Family::DataProcessing, 0x00f0_0000), // rscs
        0x7372_726f => says(Family::DataProcessing, 0x0190_0000), // orrs
        0x7376_6f6d => says(Family::DataProcessing, 0x01b0_0000), // movs
        0x7363_6962 => says(Family::DataProcessing, 0x01d0_0000), // bics
        0x736e_766d => says(Family::DataProcessing, 0x01f0_0000), // mvns
        0x62 => says(Family::Branch, 0x0000_0000), // b
        0x6c62 => says(Family::Branch, 0x0100_0000), // bl
        0x7862 => says(Family::BranchExchange, 0x0000_0000), // bx
        0x72_646c => says(Family::Transfer, 0x0010_0000), // ldr
        0x7472_646c => says(Family::Transfer, 0x0030_0000), // ldrt
        0x6272_646c => says(Family::Transfer, 0x0050_0000), // ldrb
        0x74_6272_646c => says(Family::Transfer, 0x0070_0000), // ldrbt
        0x72_7473 => says(Family::Transfer, 0x0000_0000), // str
        0x7472_7473 => says(Family::Transfer, 0x0020_0000), // strt
        0x6272_7473 => says(Family::Transfer, 0x0040_0000), // strb
        0x74_6272_7473 => says(Family::Transfer, 0x0060_0000), // strbt
        0x62_696d_646c => says(Family::BlockTransfer, 0x0190_0000), // ldmib
        0x61_696d_646c => says(Family::BlockTransfer, 0x0090_0000), // ldmia
        0x62_646d_646c => says(Family::BlockTransfer, 0x0110_0000), // ldmdb
        0x61_646d_646c => says(Family::BlockTransfer, 0x0010_0000), // ldmda
        0x62_696d_7473 => says(Family::BlockTransfer, 0x0180_0000), // stmib
        0x61_696d_7473 => says(Family::BlockTransfer, 0x0080_0000), // stmia
        0x62_646d_7473 => says(Family::BlockTransfer, 0x0100_0000), // stmdb
        0x61_646d_7473 => says(Family::BlockTransfer, 0x0000_0000), // stmda
        0x73_726d => says(Family::Mrs, 0x0000_0000), // mrs
        0x72_736d => says(Family::Msr, 0x0000_0000), // msr
        0x6c_756d => says(Family::Multiply, 0x0000_0000), // mul
        0x736c_756d => says(Family::Multiply, 0x0010_0000), // muls
        0x61_6c6d => says(Family::Multiply, 0x0020_0000), // mla
        0x7361_6c6d => says(Family::Multiply, 0x0030_0000), // mlas
        0x6c_6c75_6d75 => says(Family::MultiplyLong, 0x0000_0000), // umull
        0x736c_6c75_6d75 => says(Family::MultiplyLong, 0x0010_0000), // umulls
        0x6c_616c_6d75 => says(Family::MultiplyLong, 0x0020_0000), // umlal
        0x736c_616c_6d75 => says(Family::MultiplyLong, 0x0030_0000), // umlals
        0x6c_6c75_6d73 => says(Family::MultiplyLong, 0x0040_0000), // smull
        0x736c_6c75_6d73 => says(Family::MultiplyLong, 0x0050_0000), // smulls
        0x6c_616c_6d73 => says(Family::MultiplyLong, 0x0060_0000), // smlal
        0x736c_616c_6d73 => says(Family::MultiplyLong, 0x0070_0000), // smlals
        0x6872_646c => says(Family::HalfTransfer, 0x0010_0020), // ldrh
        0x62_7372_646c => says(Family::HalfTransfer, 0x0010_0040), // ldrsb
        0x68_7372_646c => says(Family::HalfTransfer, 0x0010_0060), // ldrsh
        0x6872_7473 => says(Family::HalfTransfer, 0x0000_0020), // strh
        0x62_7372_7473 => says(Family::HalfTransfer, 0x0000_0040), // strsb
        0x68_7372_7473 => says(Family::HalfTransfer, 0x0000_0060), // strsh
        0x69_7773 => says(Family::Swi, 0x0000_0000), // swi
        0x70_7773 => says(Family::Swap, 0x0000_0000), // swp
        0x6270_7773 => says(Family::Swap, 0x0040_0000), // swpb
        _ => says(Family::Nothing, 0),
    }
}

// What a word says as a mnemonic.
pub fn head_of(w: &[u8]) -> Head
    ensures { (result ≡ head_at (place stem_names w.now)) × (result.bits < 2 ^ 25) }
{
    head_packed(pack(w))
}
