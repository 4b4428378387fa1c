// The candidate of an ARM line: the word that its mnemonic, names, numbers and marks say.
#![tactic(auto, unfolding(crate::specs::CandidateOperand::shift_of, crate::specs::CandidateOperand::shifted_of, crate::specs::CandidateOperand::operand_of, crate::specs::CandidateSimple::field_of, crate::specs::CandidateSimple::branch_cand, crate::specs::CandidateSimple::bx_cand, crate::specs::CandidateSimple::mrs_cand, crate::specs::CandidateSimple::msr_cand, crate::specs::CandidateSimple::mul_cand, crate::specs::CandidateSimple::mull_cand, crate::specs::CandidateSimple::swi_cand, crate::specs::CandidateSimple::swp_cand, crate::specs::CandidateTransfer::base_in, crate::specs::CandidateTransfer::is_added, crate::specs::CandidateTransfer::size_of, crate::specs::CandidateTransfer::ldr_cand, crate::specs::CandidateTransfer::half_cand, crate::specs::CandidateTransfer::ldm_cand, crate::specs::CandidateTransfer::ldr_offset, crate::specs::CandidateTransfer::half_offset, arm_operand::specs::Operand::magnitude))]

ghost use Rattle.std.specs.Prelude.{◌≡◌, get_or};
ghost use Rattle.arm_candidate.specs.Candidate.{candidate, families};
ghost use Rattle.arm_candidate.specs.CandidateSaid.{of_said};
ghost use Rattle.arm_candidate.specs.CandidateSimple.{undefined_cand};
ghost use Rattle.arm_mnemonic.specs.Stems.{family_number};

use arm::undefined_bits;
use arm_mnemonic::Family;
use arm7tdmi::Form;
use data_processing::dp_candidate;
use parts::Said;
use simple::{
    branch_candidate, bx_candidate, mrs_candidate, msr_candidate, mul_candidate, mull_candidate,
    swi_candidate, swp_candidate,
};
use transfer::{half_candidate, ldm_candidate, ldr_candidate};

mod data_processing;
mod operand;
mod parts;
mod simple;
mod transfer;

// The candidate of what a line says, before it is cut to 32 bits. A `match` on the family, so that each has its candidate.
#[tactic(auto, unfolding(crate::specs::CandidateSimple::undefined_cand))]
fn by_family(said: &Said) -> u64
    ensures { result ≡ of_said (get_or families (family_number said.now.head.family) undefined_cand) said.now }
{
    match said.head.family {
        Family::DataProcessing => dp_candidate(said),
        Family::Branch => branch_candidate(said),
        Family::BranchExchange => bx_candidate(said),
        Family::Transfer => ldr_candidate(said),
        Family::BlockTransfer => ldm_candidate(said),
        Family::Mrs => mrs_candidate(said),
        Family::Msr => msr_candidate(said),
        Family::Multiply => mul_candidate(said),
        Family::MultiplyLong => mull_candidate(said),
        Family::HalfTransfer => half_candidate(said),
        Family::Swi => swi_candidate(said),
        Family::Swap => swp_candidate(said),
        Family::Nothing => u64::from(undefined_bits(said.form)),
    }
}

// The candidate of a line.
pub fn candidate_of(form: Form, pc: u32, line: &[u8]) -> u32
    ensures { result ≡ candidate form pc line.now }
{
    let said = Said::new(form, pc, line);
    (by_family(&said) % 0x1_0000_0000) as u32
}
