// Data processing.
ghost use Rattle.std.specs.Prelude.{◌≡◌, ◌≤◌, ◌<◌, ◌^◌, ◌&&◌};
ghost use Rattle.arm7tdmi.specs.Alu.{alu_number};
ghost use Rattle.arm_candidate.specs.CandidateDataProcessing.{is_test, is_three, shows_rd, rn_in, rd_in, operand_in, is_mrs, test_s, dp_cand};
ghost use Rattle.arm_candidate.specs.CandidateSaid.{of_said};

use crate::operand::operand;
use crate::parts::Said;
use arm7tdmi::Form;
use arm7tdmi::alu::AluOpCode;
use reading::parts::register;

// All but tests and moves, with three operands.
fn is_three(op: AluOpCode) -> bool
    ensures { result ≡ is_three (alu_number op) }
{
    !(op.is_setting_flags() || op.is_move())
}

// Whether the first register is Rd.
fn shows_rd(form: Form, op: AluOpCode) -> bool
    ensures { result ≡ shows_rd form (alu_number op) }
{
    match form {
        Form::Bench => false,
        Form::Sheet => !op.is_setting_flags(),
    }
}

// Rn, from the words one and two.
fn rn_in(op: AluOpCode, said: &Said) -> u64
    ensures { (result ≡ rn_in said.now.form (alu_number op) said.now.line.now) × (result ≤ 16) }
{
    if is_three(op) {
        return u64::from(register(said.two));
    }
    if shows_rd(said.form, op) {
        return 0;
    }
    u64::from(register(said.one))
}

// Rd, from word one.
fn rd_in(op: AluOpCode, said: &Said) -> u64
    ensures { (result ≡ rd_in said.now.form (alu_number op) said.now.line.now) × (result ≤ 16) }
{
    if shows_rd(said.form, op) {
        return u64::from(register(said.one));
    }
    0
}

// Operand 2, from word two or the next.
fn operand_in(op: AluOpCode, said: &Said) -> u64
    ensures { (result ≡ operand_in (alu_number op) said.now.line.now) × (result < 2 ^ 26) }
{
    if is_three(op) {
        return operand(said.three());
    }
    operand(said.two)
}

// Whether a test is mrs, where its S is clear.
fn is_mrs(op: AluOpCode, rn: u64, y: u64) -> bool
    ensures { result ≡ is_test (alu_number op) && is_mrs (alu_number op) rn y }
{
    matches!(op, AluOpCode::TST | AluOpCode::CMP) && rn == 15 && y == 0
}

// Whether a test has S: on the bench one that is mrs without it, on the sheet each (S11).
fn test_s(form: Form, op: AluOpCode, rn: u64, y: u64) -> bool
    ensures { result ≡ is_test (alu_number op) && test_s form (alu_number op) rn y }
{
    match form {
        Form::Bench => is_mrs(op, rn, y),
        Form::Sheet => op.is_setting_flags(),
    }
}

// Data processing.
pub fn dp_candidate(said: &Said) -> u64
    ensures { result ≡ of_said dp_cand said.now }
{
    let b = said.bits();
    let op = AluOpCode::from(said.head.bits / 0x0020_0000);
    let rn = rn_in(op, said);
    let rd = rd_in(op, said);
    let y = operand_in(op, said);
    let s = u64::from(test_s(said.form, op, rn, y));
    said.condition() * 0x1000_0000 + b + s * 0x0010_0000 + rn * 0x0001_0000 + rd * 0x1000 + y
}
