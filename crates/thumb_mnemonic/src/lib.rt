// The mnemonics, each with its rows.
#![tactic(auto)]

ghost use Rattle.std.specs.Prelude.{◌≡◌};
ghost use Rattle.thumb_mnemonic.specs.Rows.{rows_of};

use thumb::ThumbFormat;
use thumb::ThumbFormat::{
    AddSp, AddSub, AluOps, Branch, BranchConditional, BranchLongWithLink, DataProcessImm,
    HiRegOpOrBranchExchange, LdmStm, LdrPc, LdrStrHalfWord, LdrStrImmOffset, LdrStrRegOffset,
    LdrStrSHB, LdrStrSp, LoadAddress, MoveShiftedReg, PushPop, Swi, Undefined,
};

// The bits of a word that has the mnemonic and no operands, and its kind.
#[derive(Clone, Copy, Debug, PartialEq, Eq)]
pub struct Row(pub u16, pub ThumbFormat);

// The rows of a packed mnemonic, in the order of the words: none if it is no mnemonic. A `match`, since an array would be copied at each call.
#[tactic(auto, unfolding(text::specs::Word::packed, crate::specs::Rows::rows, crate::specs::Rows::rows_of))]
pub fn rows_of(mnemonic: u64) -> &'static [Row]
    ensures { result.now ≡ rows_of mnemonic }
{
    match mnemonic {
        0x0 => &[Row(0x0000, MoveShiftedReg), Row(0xb100, Undefined)], // none
        0x64_6461 => &[
            Row(0x1800, AddSub),
            Row(0x3000, DataProcessImm),
            Row(0x4400, HiRegOpOrBranchExchange),
            Row(0xa000, LoadAddress),
            Row(0xb000, AddSp),
        ], // add
        0x62_7573 => &[Row(0x1a00, AddSub), Row(0x3800, DataProcessImm)], // sub
        0x76_6f6d => &[
            Row(0x2000, DataProcessImm),
            Row(0x4600, HiRegOpOrBranchExchange),
        ], // mov
        0x70_6d63 => &[
            Row(0x2800, DataProcessImm),
            Row(0x4280, AluOps),
            Row(0x4500, HiRegOpOrBranchExchange),
        ], // cmp
        0x64_6e61 => &[Row(0x4000, AluOps)], // and
        0x72_6f65 => &[Row(0x4040, AluOps)], // eor
        0x6c_736c => &[Row(0x4080, AluOps)], // lsl
        0x72_736c => &[Row(0x40c0, AluOps)], // lsr
        0x72_7361 => &[Row(0x4100, AluOps)], // asr
        0x63_6461 => &[Row(0x4140, AluOps)], // adc
        0x63_6273 => &[Row(0x4180, AluOps)], // sbc
        0x72_6f72 => &[Row(0x41c0, AluOps)], // ror
        0x74_7374 => &[Row(0x4200, AluOps)], // tst
        0x67_656e => &[Row(0x4240, AluOps)], // neg
        0x6e_6d63 => &[Row(0x42c0, AluOps)], // cmn
        0x72_726f => &[Row(0x4300, AluOps)], // orr
        0x6c_756d => &[Row(0x4340, AluOps)], // mul
        0x63_6962 => &[Row(0x4380, AluOps)], // bic
        0x6e_766d => &[Row(0x43c0, AluOps)], // mvn
        0x7862 => &[Row(0x4700, HiRegOpOrBranchExchange)], // bx
        0x72_646c => &[
            Row(0x4800, LdrPc),
            Row(0x5800, LdrStrRegOffset),
            Row(0x6800, LdrStrImmOffset),
            Row(0x9800, LdrStrSp),
        ], // ldr
        0x72_7473 => &[
            Row(0x5000, LdrStrRegOffset),
            Row(0x6000, LdrStrImmOffset),
            Row(0x9000, LdrStrSp),
        ], // str
        0x6872_7473 => &[Row(0x5200, LdrStrSHB), Row(0x8000, LdrStrHalfWord)], // strh
        0x6272_7473 => &[Row(0x5400, LdrStrRegOffset), Row(0x7000, LdrStrImmOffset)], // strb
        0x6273_646c => &[Row(0x5600, LdrStrSHB)], // ldsb
        0x6872_646c => &[Row(0x5a00, LdrStrSHB), Row(0x8800, LdrStrHalfWord)], // ldrh
        0x6272_646c => &[Row(0x5c00, LdrStrRegOffset), Row(0x7800, LdrStrImmOffset)], // ldrb
        0x6873_646c => &[Row(0x5e00, LdrStrSHB)], // ldsh
        0x6873_7570 => &[Row(0xb400, PushPop)], // push
        0x70_6f70 => &[Row(0xbc00, PushPop)], // pop
        0x6d_7473 => &[Row(0xc000, LdmStm)], // stm
        0x6d_646c => &[Row(0xc800, LdmStm)], // ldm
        0x71_6562 => &[Row(0xd000, BranchConditional)], // beq
        0x65_6e62 => &[Row(0xd100, BranchConditional)], // bne
        0x73_6362 => &[Row(0xd200, BranchConditional)], // bcs
        0x63_6362 => &[Row(0xd300, BranchConditional)], // bcc
        0x69_6d62 => &[Row(0xd400, BranchConditional)], // bmi
        0x6c_7062 => &[Row(0xd500, BranchConditional)], // bpl
        0x73_7662 => &[Row(0xd600, BranchConditional)], // bvs
        0x63_7662 => &[Row(0xd700, BranchConditional)], // bvc
        0x69_6862 => &[Row(0xd800, BranchConditional)], // bhi
        0x73_6c62 => &[Row(0xd900, BranchConditional)], // bls
        0x65_6762 => &[Row(0xda00, BranchConditional)], // bge
        0x74_6c62 => &[Row(0xdb00, BranchConditional)], // blt
        0x74_6762 => &[Row(0xdc00, BranchConditional)], // bgt
        0x65_6c62 => &[Row(0xdd00, BranchConditional)], // ble
        0x62 => &[Row(0xde00, BranchConditional), Row(0xe000, Branch)], // b
        0x69_7773 => &[Row(0xdf00, Swi)], // swi
        0x6c62 => &[
            Row(0xf000, BranchLongWithLink),
            Row(0xf800, BranchLongWithLink),
        ], // bl
        _ => &[],
    }
}
