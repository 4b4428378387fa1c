// The worked lines and the traps of the papers, through the public operations: how many answers differ from them.
#![tactic(auto)]

ghost use Rattle.std.specs.Prelude.{◌≡◌};

use arm_print::print_arm;
use arm_read::read_arm;
use arm7tdmi::Form;
use line_address::{arm_address, pair_address, thumb_address};
use lines::LINE;
use pairs::print::print_pair;
use pairs::read::read_pair;
use pairs::run::unpaired;
use refusal::Refusal;
use std::io;
use text::put::part;
use thumb_print::print_thumb;
use thumb_read::read_thumb;

// What a word prints: a line, or a refusal.
type Printed = Result<&'static [u8], Refusal>;

// What is asked of an operation, and last what is said that it answers.
#[derive(Clone, Copy, Debug, PartialEq, Eq)]
enum Row {
    // what an ARM word prints at an address
    Arm(Form, u32, u32, Printed),
    // what a Thumb word prints at an address
    Thumb(Form, u32, u16, Printed),
    // what two halfwords print as a call pair at an address
    Pair(u32, u16, u16, Printed),
    // what a line reads as at address 0: the word, if one prints it
    ArmLine(Form, &'static [u8], Option<u32>),
    // what a line reads as at an address
    ThumbLine(Form, u32, &'static [u8], Option<u16>),
    // what a line reads as, as a call pair: its halves, if one prints it
    PairLine(u32, &'static [u8], Option<(u16, u16)>),
    // the index of the earliest half of a run that lacks its partner, if one does
    Run(&'static [u16], Option<usize>),
    // the address that the sheet line of an ARM word shows at an address, if it shows one
    ArmAddress(u32, u32, Option<u32>),
    // the same for a Thumb word
    ThumbAddress(u32, u16, Option<u32>),
    // the same for two halfwords as a call pair
    PairAddress(u32, u16, u16, Option<u32>),
}

const ROWS: [Row; 103] = [
    // ARM words, on the bench and then on the sheet.
    Row::Arm(Form::Bench, 0, 0xe082_1003, Ok(b"add\tr2, r2, r3")),
    Row::Arm(
        Form::Bench,
        0,
        0xe511_0004,
        Ok(b"ldr\tr0, [r1, #4294967292]\t; 0xfffffffc"),
    ),
    Row::Arm(Form::Bench, 0, 0xe791_0002, Ok(b"<Undefined>")),
    Row::Arm(
        Form::Bench,
        0x100,
        0xe59f_0004,
        Ok(b"ldr\tr0, [pc, #4]\t; 0x10c"),
    ),
    Row::Arm(Form::Bench, 0x100, 0xeaff_fffe, Ok(b"b\t0x100")),
    Row::Arm(Form::Bench, 0, 0xf12f_ff10, Ok(b"bx\tr0")),
    Row::Arm(Form::Bench, 0, 0xe180_0090, Err(Refusal::NoTransfer)),
    Row::Arm(Form::Bench, 0, 0xf180_0090, Err(Refusal::NoCondition)),
    Row::Arm(Form::Sheet, 0, 0xe082_1003, Ok(b"add\tr1, r2, r3")),
    Row::Arm(
        Form::Sheet,
        0,
        0xe511_0004,
        Ok(b"ldr\tr0, [r1, #-4]\t; 0xfffffffc"),
    ),
    Row::Arm(Form::Sheet, 0, 0xe791_0002, Ok(b"ldr\tr0, [r1, r2]")),
    Row::Arm(
        Form::Sheet,
        0x100,
        0xe59f_0004,
        Ok(b"ldr\tr0, [pc, #4]\t; 0x0000010c"),
    ),
    Row::Arm(Form::Sheet, 0x100, 0xeaff_fffe, Ok(b"b\t0x00000100")),
    Row::Arm(Form::Sheet, 0, 0xf12f_ff10, Err(Refusal::NoCondition)),
    Row::Arm(Form::Sheet, 0, 0xe180_0090, Err(Refusal::NoTransfer)),
    Row::Arm(Form::Sheet, 0, 0xf180_0090, Err(Refusal::NoCondition)),
    // Thumb words.
    Row::Thumb(Form::Bench, 0, 0x4480, Ok(b"add\tr0, r0")),
    Row::Thumb(Form::Sheet, 0, 0x4480, Ok(b"add\tr8, r0")),
    Row::Thumb(Form::Bench, 0, 0xc808, Ok(b"ldm\tr1!, {r3}")),
    Row::Thumb(Form::Sheet, 0, 0xc808, Ok(b"ldm\tr0!, {r3}")),
    Row::Thumb(Form::Bench, 0, 0xb0ff, Ok(b"add\tsp, #fffffe04")),
    Row::Thumb(Form::Sheet, 0, 0xb0ff, Ok(b"add\tsp, #-0x1fc")),
    // An amount of 0: as the field has it on the bench, as what it means on the sheet.
    Row::Arm(Form::Bench, 0, 0xe1a0_1022, Ok(b"mov\tr0, r2, lsr #0")),
    Row::Arm(Form::Sheet, 0, 0xe1a0_1022, Ok(b"mov\tr1, r2, lsr #32")),
    Row::Arm(Form::Sheet, 0, 0xe1a0_1042, Ok(b"mov\tr1, r2, asr #32")),
    Row::Arm(Form::Sheet, 0, 0xe1a0_1062, Ok(b"mov\tr1, r2, rrx")),
    Row::Arm(Form::Sheet, 0, 0xe791_0062, Ok(b"ldr\tr0, [r1, r2, rrx]")),
    Row::Arm(Form::Sheet, 0, 0xe711_0062, Ok(b"ldr\tr0, [r1, -r2, rrx]")),
    Row::Thumb(Form::Bench, 0, 0x0808, Ok(b"LSR\tr0, r1, #0")),
    Row::Thumb(Form::Sheet, 0, 0x0808, Ok(b"LSR\tr0, r1, #32")),
    Row::Thumb(Form::Sheet, 0, 0x1008, Ok(b"ASR\tr0, r1, #32")),
    Row::Thumb(Form::Sheet, 0, 0x0008, Ok(b"LSL\tr0, r1, #0")),
    // ARM lines read back, on the bench and then on the sheet.
    Row::ArmLine(Form::Bench, b"add\tr1, r2, r3", None),
    Row::ArmLine(Form::Bench, b"tst\tpc, r0", Some(0xe11f_0000)),
    Row::ArmLine(Form::Bench, b"mov\tr0, #256\t; 0x100", Some(0xe3a0_0c01)),
    Row::ArmLine(Form::Bench, b"mov\tr0, #257\t; 0x101", None),
    Row::ArmLine(Form::Bench, b"mov\tr0, #4\t; 0x4", Some(0xe3a0_0004)),
    Row::ArmLine(Form::Bench, b"ldr\tr0, [r1, #0]\t; 0x0", Some(0xe511_0000)),
    Row::ArmLine(Form::Bench, b"<Undefined>", Some(0x0600_0000)),
    Row::ArmLine(Form::Bench, b"bx\tr0", Some(0x012f_ff10)),
    Row::ArmLine(Form::Sheet, b"add\tr1, r2, r3", Some(0xe082_1003)),
    Row::ArmLine(Form::Sheet, b"tst\tpc, r0", Some(0xe11f_0000)),
    Row::ArmLine(Form::Sheet, b"mov\tr0, #256\t; 0x100", Some(0xe3a0_0c01)),
    Row::ArmLine(Form::Sheet, b"mov\tr0, #257\t; 0x101", None),
    Row::ArmLine(Form::Sheet, b"mov\tr0, #4\t; 0x4", Some(0xe3a0_0004)),
    Row::ArmLine(Form::Sheet, b"ldr\tr0, [r1, #0]\t; 0x0", Some(0xe591_0000)),
    Row::ArmLine(Form::Sheet, b"<Undefined>", Some(0x0600_0010)),
    // Thumb branches at address 100: the bench has as many digits as the number, the sheet eight.
    Row::ThumbLine(Form::Bench, 0x100, b"b\t0x104", Some(0xde00)),
    Row::ThumbLine(Form::Bench, 0x100, b"b\t0x00000104", None),
    Row::ThumbLine(Form::Sheet, 0x100, b"b\t0x104", None),
    Row::ThumbLine(Form::Sheet, 0x100, b"b\t0x0000104", None),
    Row::ThumbLine(Form::Sheet, 0x100, b"b\t0x00000104", Some(0xe000)),
    Row::ThumbLine(Form::Sheet, 0x100, b"b\t0x000000104", None),
    Row::ThumbLine(Form::Sheet, 0x100, b"b\t0x0000010C", None),
    Row::ThumbLine(Form::Sheet, 0x100, b"b\t00000104", None),
    // Lines with shifts.
    Row::ArmLine(Form::Bench, b"mov\tr0, r2, lsr #0", Some(0xe1a0_0022)),
    Row::ArmLine(Form::Sheet, b"mov\tr1, r2, lsr #32", Some(0xe1a0_1022)),
    Row::ArmLine(Form::Sheet, b"mov\tr1, r2, asr #32", Some(0xe1a0_1042)),
    Row::ArmLine(Form::Sheet, b"mov\tr1, r2, rrx", Some(0xe1a0_1062)),
    Row::ArmLine(Form::Sheet, b"ldr\tr0, [r1, r2, rrx]", Some(0xe791_0062)),
    Row::ArmLine(Form::Sheet, b"ldr\tr0, [r1, -r2, rrx]", Some(0xe711_0062)),
    Row::ThumbLine(Form::Bench, 0, b"LSR\tr0, r1, #0", Some(0x0808)),
    Row::ThumbLine(Form::Sheet, 0, b"LSR\tr0, r1, #32", Some(0x0808)),
    Row::ThumbLine(Form::Sheet, 0, b"ASR\tr0, r1, #32", Some(0x1008)),
    Row::ThumbLine(Form::Sheet, 0, b"LSL\tr0, r1, #0", Some(0x0008)),
    // Shifts that no sheet line has.
    Row::ArmLine(Form::Sheet, b"mov\tr1, r2, lsr #0", None),
    Row::ArmLine(Form::Sheet, b"mov\tr1, r2, asr #0", None),
    Row::ArmLine(Form::Sheet, b"mov\tr1, r2, ror #0", None),
    Row::ArmLine(Form::Sheet, b"mov\tr1, r2, lsl #32", None),
    Row::ArmLine(Form::Sheet, b"mov\tr1, r2, ror #32", None),
    Row::ArmLine(Form::Sheet, b"mov\tr1, r2, rrx #0", None),
    Row::ArmLine(Form::Sheet, b"mov\tr1, r2, lsr #33", None),
    Row::ThumbLine(Form::Sheet, 0, b"LSR\tr0, r1, #0", None),
    // Shifts that no bench line has.
    Row::ArmLine(Form::Bench, b"mov\tr0, r2, lsr #32", None),
    Row::ArmLine(Form::Bench, b"mov\tr0, r2, rrx", None),
    Row::ThumbLine(Form::Bench, 0, b"LSR\tr0, r1, #32", None),
    // Thumb lines.
    Row::ThumbLine(Form::Bench, 0, b"cmp\tr0, r0", Some(0x4280)),
    Row::ThumbLine(Form::Sheet, 0, b"cmp\tr0, r0", Some(0x4280)),
    Row::ThumbLine(Form::Bench, 0, b"bl\t#0x00000000", Some(0xf000)),
    Row::ThumbLine(Form::Sheet, 0, b"bl\t#0x00000000", Some(0xf000)),
    Row::ThumbLine(Form::Bench, 0, b"ldm\tr0!, {r3}", None),
    Row::ThumbLine(Form::Bench, 0, b"ROR\tr0, r0, #0", None),
    // A Thumb call on one line. The halves in the wrong order are refused with 5.
    Row::Pair(0, 0xf000, 0xf800, Ok(b"bl\t0x00000004")),
    Row::Pair(0x100, 0xf7ff, 0xfffe, Ok(b"bl\t0x00000100")),
    Row::Pair(0, 0xf400, 0xf800, Ok(b"bl\t0xffc00004")),
    Row::Pair(0xffff_fffe, 0xf000, 0xf800, Ok(b"bl\t0x00000002")),
    Row::Pair(0, 0xf3ff, 0xffff, Ok(b"bl\t0x00400002")),
    Row::Pair(0, 0xf800, 0xf000, Err(Refusal::NoPair)),
    // Lines of call pairs.
    Row::PairLine(0, b"bl\t0x00000004", Some((0xf000, 0xf800))),
    Row::PairLine(0x100, b"bl\t0x00000100", Some((0xf7ff, 0xfffe))),
    Row::PairLine(0, b"bl\t0xffc00004", Some((0xf400, 0xf800))),
    Row::PairLine(0xffff_fffe, b"bl\t0x00000002", Some((0xf000, 0xf800))),
    Row::PairLine(0, b"bl\t0x00400002", Some((0xf3ff, 0xffff))),
    // Lines of no pair: a lone half's, one too far ahead, one too far back, an odd distance, seven digits.
    Row::PairLine(0, b"bl\t#0x00000000", None),
    Row::PairLine(0, b"bl\t0x00400004", None),
    Row::PairLine(0, b"bl\t0xffc00002", None),
    Row::PairLine(0, b"bl\t0x00000005", None),
    Row::PairLine(0, b"bl\t0x0000004", None),
    // Runs of halfwords, by first and second halves: F F S, F S S, F, S, and one where all are paired.
    Row::Run(&[0xf000, 0xf000, 0xf800], Some(0)),
    Row::Run(&[0xf000, 0xf800, 0xf800], Some(2)),
    Row::Run(&[0xf000], Some(0)),
    Row::Run(&[0xf800], Some(0)),
    Row::Run(&[0x4770, 0xf000, 0xf800, 0xf7ff, 0xfffe], None),
];

// Tests (tst, teq, cmp, cmn) with S and without. A table of its own: the check does not take a longer one in one function.
const TESTS: [Row; 71] = [
    // Tests whose S is clear, of registers and of immediates: lines on the bench, refused with 9 on the sheet.
    Row::Arm(Form::Bench, 0, 0xe100_0000, Ok(b"tst\tr0, r0")),
    Row::Arm(Form::Bench, 0, 0xe120_0000, Ok(b"teq\tr0, r0")),
    Row::Arm(Form::Bench, 0, 0xe140_0000, Ok(b"cmp\tr0, r0")),
    Row::Arm(Form::Bench, 0, 0xe160_0000, Ok(b"cmn\tr0, r0")),
    Row::Arm(Form::Bench, 0, 0xe300_0000, Ok(b"tst\tr0, #0\t; 0x0")),
    Row::Arm(Form::Bench, 0, 0xe320_0000, Ok(b"teq\tr0, #0\t; 0x0")),
    Row::Arm(Form::Bench, 0, 0xe340_0000, Ok(b"cmp\tr0, #0\t; 0x0")),
    Row::Arm(Form::Bench, 0, 0xe360_0000, Ok(b"cmn\tr0, #0\t; 0x0")),
    Row::Arm(Form::Sheet, 0, 0xe100_0000, Err(Refusal::NoFlags)),
    Row::Arm(Form::Sheet, 0, 0xe120_0000, Err(Refusal::NoFlags)),
    Row::Arm(Form::Sheet, 0, 0xe140_0000, Err(Refusal::NoFlags)),
    Row::Arm(Form::Sheet, 0, 0xe160_0000, Err(Refusal::NoFlags)),
    Row::Arm(Form::Sheet, 0, 0xe300_0000, Err(Refusal::NoFlags)),
    Row::Arm(Form::Sheet, 0, 0xe320_0000, Err(Refusal::NoFlags)),
    Row::Arm(Form::Sheet, 0, 0xe340_0000, Err(Refusal::NoFlags)),
    Row::Arm(Form::Sheet, 0, 0xe360_0000, Err(Refusal::NoFlags)),
    // With S set they print in both forms.
    Row::Arm(Form::Bench, 0, 0xe110_0000, Ok(b"tst\tr0, r0")),
    Row::Arm(Form::Bench, 0, 0xe130_0000, Ok(b"teq\tr0, r0")),
    Row::Arm(Form::Bench, 0, 0xe150_0000, Ok(b"cmp\tr0, r0")),
    Row::Arm(Form::Bench, 0, 0xe170_0000, Ok(b"cmn\tr0, r0")),
    Row::Arm(Form::Bench, 0, 0xe310_0000, Ok(b"tst\tr0, #0\t; 0x0")),
    Row::Arm(Form::Bench, 0, 0xe330_0000, Ok(b"teq\tr0, #0\t; 0x0")),
    Row::Arm(Form::Bench, 0, 0xe350_0000, Ok(b"cmp\tr0, #0\t; 0x0")),
    Row::Arm(Form::Bench, 0, 0xe370_0000, Ok(b"cmn\tr0, #0\t; 0x0")),
    Row::Arm(Form::Sheet, 0, 0xe110_0000, Ok(b"tst\tr0, r0")),
    Row::Arm(Form::Sheet, 0, 0xe130_0000, Ok(b"teq\tr0, r0")),
    Row::Arm(Form::Sheet, 0, 0xe150_0000, Ok(b"cmp\tr0, r0")),
    Row::Arm(Form::Sheet, 0, 0xe170_0000, Ok(b"cmn\tr0, r0")),
    Row::Arm(Form::Sheet, 0, 0xe310_0000, Ok(b"tst\tr0, #0\t; 0x0")),
    Row::Arm(Form::Sheet, 0, 0xe330_0000, Ok(b"teq\tr0, #0\t; 0x0")),
    Row::Arm(Form::Sheet, 0, 0xe350_0000, Ok(b"cmp\tr0, #0\t; 0x0")),
    Row::Arm(Form::Sheet, 0, 0xe370_0000, Ok(b"cmn\tr0, #0\t; 0x0")),
    // Their lines read as the word without S on the bench, with it on the sheet.
    Row::ArmLine(Form::Bench, b"tst\tr0, r0", Some(0xe100_0000)),
    Row::ArmLine(Form::Bench, b"teq\tr0, r0", Some(0xe120_0000)),
    Row::ArmLine(Form::Bench, b"cmp\tr0, r0", Some(0xe140_0000)),
    Row::ArmLine(Form::Bench, b"cmn\tr0, r0", Some(0xe160_0000)),
    Row::ArmLine(Form::Bench, b"tst\tr0, #0\t; 0x0", Some(0xe300_0000)),
    Row::ArmLine(Form::Bench, b"teq\tr0, #0\t; 0x0", Some(0xe320_0000)),
    Row::ArmLine(Form::Bench, b"cmp\tr0, #0\t; 0x0", Some(0xe340_0000)),
    Row::ArmLine(Form::Bench, b"cmn\tr0, #0\t; 0x0", Some(0xe360_0000)),
    Row::ArmLine(Form::Sheet, b"tst\tr0, r0", Some(0xe110_0000)),
    Row::ArmLine(Form::Sheet, b"teq\tr0, r0", Some(0xe130_0000)),
    Row::ArmLine(Form::Sheet, b"cmp\tr0, r0", Some(0xe150_0000)),
    Row::ArmLine(Form::Sheet, b"cmn\tr0, r0", Some(0xe170_0000)),
    Row::ArmLine(Form::Sheet, b"tst\tr0, #0\t; 0x0", Some(0xe310_0000)),
    Row::ArmLine(Form::Sheet, b"teq\tr0, #0\t; 0x0", Some(0xe330_0000)),
    Row::ArmLine(Form::Sheet, b"cmp\tr0, #0\t; 0x0", Some(0xe350_0000)),
    Row::ArmLine(Form::Sheet, b"cmn\tr0, #0\t; 0x0", Some(0xe370_0000)),
    // Rn is pc: without S some of these words would be mrs.
    Row::ArmLine(Form::Bench, b"teq\tpc, r0", Some(0xe12f_0000)),
    Row::ArmLine(Form::Bench, b"cmp\tpc, r0", Some(0xe15f_0000)),
    Row::ArmLine(Form::Bench, b"tst\tpc, r1", Some(0xe10f_0001)),
    Row::ArmLine(Form::Sheet, b"teq\tpc, r0", Some(0xe13f_0000)),
    Row::ArmLine(Form::Sheet, b"cmp\tpc, r0", Some(0xe15f_0000)),
    Row::ArmLine(Form::Sheet, b"tst\tpc, r1", Some(0xe11f_0001)),
    // Stored lines with a shift of zero.
    Row::ArmLine(Form::Bench, b"tst\tr0, r0, lsr #0", Some(0xe100_0020)),
    Row::ArmLine(Form::Sheet, b"tst\tr0, r0, lsr #0", None),
    Row::ArmLine(Form::Sheet, b"tst\tr0, r0, lsr #32", Some(0xe110_0020)),
    // The kind decides: swp, strh, msr, mrs and bx print.
    Row::Arm(Form::Sheet, 0, 0xe100_0090, Ok(b"swp\tr0, r0, [r0]")),
    Row::Arm(Form::Sheet, 0, 0xe100_00b0, Ok(b"strh\tr0, [r0, -r0]")),
    Row::Arm(Form::Sheet, 0, 0xe129_f000, Ok(b"msr\tCPSR, r0")),
    Row::Arm(
        Form::Sheet,
        0,
        0xe328_f000,
        Ok(b"msr\tCPSR_f, #0\t; 0x0\t; N=false Z=false C=false V=false"),
    ),
    Row::Arm(Form::Sheet, 0, 0xe10f_0000, Ok(b"mrs\tr0, CPSR")),
    Row::Arm(Form::Sheet, 0, 0xe12f_ff10, Ok(b"bx\tr0")),
    // And these three are data processing.
    Row::Arm(Form::Bench, 0, 0xe121_f000, Ok(b"teq\tr1, r0")),
    Row::Arm(Form::Bench, 0, 0xe120_f000, Ok(b"teq\tr0, r0")),
    Row::Arm(Form::Bench, 0, 0xe320_f000, Ok(b"teq\tr0, #0\t; 0x0")),
    Row::Arm(Form::Sheet, 0, 0xe121_f000, Err(Refusal::NoFlags)),
    Row::Arm(Form::Sheet, 0, 0xe120_f000, Err(Refusal::NoFlags)),
    Row::Arm(Form::Sheet, 0, 0xe320_f000, Err(Refusal::NoFlags)),
    // Refusal 1 comes before 9.
    Row::Arm(Form::Bench, 0, 0xf100_0000, Err(Refusal::NoCondition)),
    Row::Arm(Form::Sheet, 0, 0xf100_0000, Err(Refusal::NoCondition)),
];

// Addresses that sheet lines show.
const ADDRESSES: [Row; 39] = [
    // b and bl, with a condition and without, forward, back, and across the end of the addresses.
    Row::ArmAddress(0x100, 0xeaff_fffe, Some(0x100)),
    Row::ArmAddress(0, 0xeb00_0000, Some(8)),
    Row::ArmAddress(0, 0x0a7f_ffff, Some(0x200_0004)),
    Row::ArmAddress(0, 0xea80_0000, Some(0xfe00_0008)),
    Row::ArmAddress(0xffff_fff8, 0xea00_0000, Some(0)),
    // ldr and str by an offset from pc, added, subtracted, and behind the brackets; ldrh and ldrsb.
    Row::ArmAddress(0x100, 0xe59f_0004, Some(0x10c)),
    Row::ArmAddress(0x100, 0xe50f_0004, Some(0x104)),
    Row::ArmAddress(0x100, 0xe49f_0004, Some(0x10c)),
    Row::ArmAddress(0, 0xe51f_0010, Some(0xffff_fff8)),
    Row::ArmAddress(0x100, 0xe1df_00b4, Some(0x10c)),
    Row::ArmAddress(0x100, 0xe15f_01d4, Some(0xf4)),
    // From another base, and by a register.
    Row::ArmAddress(0x100, 0xe59e_0004, None),
    Row::ArmAddress(0x100, 0xe1de_00b4, None),
    Row::ArmAddress(0x100, 0xe79f_0002, None),
    Row::ArmAddress(0x100, 0xe19f_00b2, None),
    // mov of a number, add to pc, swi, and no instruction.
    Row::ArmAddress(0x100, 0xe3a0_0c01, None),
    Row::ArmAddress(0x100, 0xe28f_0004, None),
    Row::ArmAddress(0x100, 0xef00_0010, None),
    Row::ArmAddress(0x100, 0xe600_0010, None),
    // Refused with 1 and with 2.
    Row::ArmAddress(0x100, 0xfaff_fffe, None),
    Row::ArmAddress(0x100, 0xf59f_0004, None),
    Row::ArmAddress(0x100, 0xe1df_0094, None),
    // ldr from pc, which clears bit 1 of where it stands.
    Row::ThumbAddress(0x100, 0x4801, Some(0x108)),
    Row::ThumbAddress(0x102, 0x4801, Some(0x108)),
    Row::ThumbAddress(0xffff_fffe, 0x4800, Some(0)),
    // b, with a condition and without.
    Row::ThumbAddress(0x100, 0xd0fe, Some(0x100)),
    Row::ThumbAddress(0, 0xdd80, Some(0xffff_ff04)),
    Row::ThumbAddress(0x100, 0xe7fe, Some(0x100)),
    Row::ThumbAddress(0xffff_fffe, 0xe3ff, Some(0x800)),
    // No instruction, swi, the halves of a call by themselves, and add to pc.
    Row::ThumbAddress(0x100, 0xde00, None),
    Row::ThumbAddress(0x100, 0xdf10, None),
    Row::ThumbAddress(0x100, 0xf000, None),
    Row::ThumbAddress(0x100, 0xf800, None),
    Row::ThumbAddress(0x100, 0xa001, None),
    // A call, to itself, far back, and across the end of the addresses; and two halves that are none.
    Row::PairAddress(0x100, 0xf7ff, 0xfffe, Some(0x100)),
    Row::PairAddress(0, 0xf400, 0xf800, Some(0xffc0_0004)),
    Row::PairAddress(0xffff_fffe, 0xf000, 0xf800, Some(2)),
    Row::PairAddress(0x100, 0xf800, 0xf000, None),
    Row::PairAddress(0x100, 0xf000, 0xf000, None),
];

// Whether what is printed into a buffer with room for any line is what is said.
fn prints<F: FnOnce(&mut [u8]) -> Result<usize, Refusal>>(
    print: F,
    said: Result<&[u8], Refusal>,
) -> bool
    requires { F.IsAlwaysCallable print }
{
    let mut buf = [0u8; LINE];
    match (print(&mut buf), said) {
        (Ok(n), Ok(line)) => part(&buf, 0, n) == line,
        (Err(refusal), Err(other)) => refusal == other,
        _ => false,
    }
}

// Whether an operation answers what is said.
fn holds(row: Row) -> bool {
    match row {
        Row::Arm(form, pc, word, said) => prints(|buf| print_arm(form, word, pc, buf), said),
        Row::Thumb(form, pc, word, said) => prints(|buf| print_thumb(form, word, pc, buf), said),
        Row::Pair(pc, first, second, said) => prints(
            |buf| print_pair(first, second, pc, buf),
            said,
        ),
        Row::ArmLine(form, line, said) => read_arm(form, 0, line) == said,
        Row::ThumbLine(form, pc, line, said) => read_thumb(form, pc, line) == said,
        Row::PairLine(pc, line, said) => read_pair(pc, line) == said,
        Row::Run(halfwords, said) => unpaired(halfwords) == said,
        Row::ArmAddress(pc, word, said) => arm_address(word, pc) == said,
        Row::ThumbAddress(pc, word, said) => thumb_address(word, pc) == said,
        Row::PairAddress(pc, first, second, said) => pair_address(first, second, pc) == said,
    }
}

// How many of some rows do not hold.
fn differing(rows: &[Row]) -> usize {
    rows.iter().filter(|row| !holds(**row)).count()
}

fn rows_differing() -> usize {
    differing(&ROWS)
}

fn tests_differing() -> usize {
    differing(&TESTS)
}

fn addresses_differing() -> usize {
    differing(&ADDRESSES)
}

fn main(rt: HostRuntime) -> io::Result<()> {
    let rows = rows_differing();
    println!(rt; "{rows} of {} answers differ", ROWS.len())?;
    let tests = tests_differing();
    println!(rt; "{tests} of {} answers for tests differ", TESTS.len())?;
    let addresses = addresses_differing();
    println!(rt; "{addresses} of {} addresses differ", ADDRESSES.len())
}
