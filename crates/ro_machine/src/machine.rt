//! One step of the machine (Cairo whitepaper, section 4.5).
//! A memory and a state come in; the next state goes out, or the first part of the step that fails.
//! The trace check calls it for each step of a run. All sums of addresses and words are in the field.

ghost use Rattle.std.specs.Prelude.{◌≡◌, ◌↔◌, Ok, IfErr, if◌then◌else◌};
ghost use Rattle.std.specs.FinMap.{get};
ghost use Rattle.ro_machine.specs.Step.{Step, moved, op0_address, op1_address, dst_address, next_instruction, res_of, pc_after, ap_after, fp_after};
ghost use Rattle.ro_machine.specs.Stops.{Stops};
ghost use Rattle.ro_machine.specs.Stepping.{step_of, listed, decoded, equal_or, asserted, state_after};

use crate::memory::Memory;
use casm_word::{ApKind, Flags, Op1, Opcode, PcKind, ResKind, decode};
use felt64::Felt;
use thiserror::Error;

/// Where the machine is: the program counter, the allocation pointer and the frame pointer.
#[derive(Clone, Copy, Debug, PartialEq, Eq)]
pub struct State {
    /// The address of the instruction.
    pub pc: Felt,
    /// The address of the next free cell.
    pub ap: Felt,
    /// The address of the frame.
    pub fp: Felt,
}

/// Why no step starts at a state.
#[derive(Clone, Copy, Debug, PartialEq, Eq, Drop, Error)]
pub enum StepFault {
    /// The first cell in reading order (pc, op0, op1, dst) that isn't listed.
    #[error("the cell is not listed")]
    CellMissing(Felt),
    /// The word at this pc is undefined: no flags have it.
    #[error("the word is undefined")]
    BadWord(Felt),
    /// dst and res, which differ, though the instruction asserts that they are equal.
    #[error("an assertion fails")]
    AssertFails(Felt, Felt),
    /// dst and fp, or else op0 and the return pc, which differ, though a call asserts that they are equal.
    #[error("a call writes other words")]
    CallFails(Felt, Felt),
}

/// The step that starts at `from`. It reads four cells, whether the instruction uses them or not, and takes no memory.
///
/// # Errors
///
/// The first part that fails, in this order: the word at pc is listed and decodes; op0, op1 and dst are listed; the
/// opcode's assertions hold, of a call that on dst before that on op0.
pub fn step(memory: &Memory, from: State) -> Result<State, StepFault>
    ensures step { (to : State) → (result ≡ Ok to) ↔ Step (get memory.now) from to }
    ensures stops { IfErr result (Stops (get memory.now) from) }
{
    stepped(memory, from)
}

/// The step as a function of what is listed.
#[tactic(auto, unfolding(crate::specs::Stepping::step_of))]
fn stepped(memory: &Memory, from: State) -> Result<State, StepFault>
    ensures { result ≡ step_of (get memory.now) from }
{
    let word = listed(memory, from.pc)?;
    let flags = decoded(from.pc, word)?;
    let at = Instruction { flags, from };
    let op0 = listed(memory, at.op0_address())?;
    let op1 = listed(memory, at.op1_address(op0))?;
    let dst = listed(memory, at.dst_address())?;
    let res = at.res(op0, op1);
    at.assert(op0, dst, res)?;
    Ok(at.next(op1, dst, res))
}

/// The word of a cell.
fn listed(memory: &Memory, at: Felt) -> Result<Felt, StepFault>
    ensures { result ≡ listed (get memory.now) at }
{
    memory.get(at).ok_or(StepFault::CellMissing(at))
}

/// The flags of the word at `pc`.
fn decoded(pc: Felt, word: Felt) -> Result<Flags, StepFault>
    ensures { result ≡ decoded pc word }
{
    match decode(word.value()) {
        Ok(flags) => Ok(flags),
        Err(_) => Err(StepFault::BadWord(pc)),
    }
}

/// The address that lies `offset` cells from `base`.
fn moved(base: Felt, offset: i16) -> Felt
    ensures { result ≡ moved base offset }
{
    let distance = Felt::from(u32::from(offset.unsigned_abs()));
    if offset < 0 {
        base.sub(distance)
    } else {
        base.add(distance)
    }
}

/// The instruction at a state.
#[derive(Clone, Copy)]
struct Instruction {
    flags: Flags,
    from: State,
}

impl Instruction {
    /// The register from which a cell is counted.
    fn register(&self, is_fp: bool) -> Felt
        ensures { result ≡ (if is_fp then self.now.from.fp else self.now.from.ap) }
    {
        if is_fp { self.from.fp } else { self.from.ap }
    }

    /// The address of dst.
    fn dst_address(&self) -> Felt
        ensures { result ≡ dst_address self.now.flags self.now.from }
    {
        let flags = &self.flags;
        moved(self.register(flags.dst_fp), flags.off_dst)
    }

    /// The address of op0.
    fn op0_address(&self) -> Felt
        ensures { result ≡ op0_address self.now.flags self.now.from }
    {
        let flags = &self.flags;
        moved(self.register(flags.op0_fp), flags.off_op0)
    }

    /// The address of op1, which may need the word of op0.
    fn op1_address(&self, op0: Felt) -> Felt
        ensures { result ≡ op1_address self.now.flags self.now.from op0 }
    {
        let flags = &self.flags;
        let base = match flags.op1 {
            Op1::Op0 => op0,
            Op1::Imm => self.from.pc,
            Op1::Fp => self.from.fp,
            Op1::Ap => self.from.ap,
        };
        moved(base, flags.off_op1)
    }

    /// The address of the next instruction in the code.
    fn next_instruction(&self) -> Felt
        ensures { result ≡ next_instruction self.now.flags self.now.from }
    {
        let flags = &self.flags;
        let size = match flags.op1 {
            Op1::Imm => Felt::from(2),
            Op1::Op0 | Op1::Fp | Op1::Ap => Felt::from(1),
        };
        self.from.pc.add(size)
    }

    /// What the operands give.
    fn res(&self, op0: Felt, op1: Felt) -> Felt
        ensures { result ≡ res_of self.now.flags.res op0 op1 }
    {
        let flags = &self.flags;
        match flags.res {
            ResKind::Op1 => op1,
            ResKind::Add => op0.add(op1),
            ResKind::Mul => op0.mul(op1),
        }
    }

    /// What the opcode asserts.
    fn assert(&self, op0: Felt, dst: Felt, res: Felt) -> Result<(), StepFault>
        ensures { result ≡ asserted self.now.flags.opcode self.now.flags self.now.from op0 dst res }
    {
        let flags = &self.flags;
        match flags.opcode {
            Opcode::Nop | Opcode::Ret => Ok(()),
            Opcode::Call => {
                let fp = self.from.fp;
                equal(dst, fp, StepFault::CallFails(dst, fp))?;
                let return_pc = self.next_instruction();
                equal(op0, return_pc, StepFault::CallFails(op0, return_pc))
            }
            Opcode::AssertEq => equal(dst, res, StepFault::AssertFails(dst, res)),
        }
    }

    /// The state after the step.
    fn next(&self, op1: Felt, dst: Felt, res: Felt) -> State
        ensures { result ≡ state_after self.now.flags self.now.from op1 dst res }
    {
        State {
            pc: self.next_pc(op1, dst, res),
            ap: self.next_ap(res),
            fp: self.next_fp(dst),
        }
    }

    fn next_pc(&self, op1: Felt, dst: Felt, res: Felt) -> Felt
        ensures { result ≡ pc_after self.now.flags.pc (next_instruction self.now.flags self.now.from) self.now.from.pc op1 dst res }
    {
        let flags = &self.flags;
        match flags.pc {
            PcKind::Next => self.next_instruction(),
            PcKind::Abs => res,
            PcKind::Rel => self.from.pc.add(res),
            PcKind::Jnz if dst == Felt::from(0) => self.next_instruction(),
            PcKind::Jnz => self.from.pc.add(op1),
        }
    }

    fn next_ap(&self, res: Felt) -> Felt
        ensures { result ≡ ap_after self.now.flags.opcode self.now.flags.ap self.now.from.ap res }
    {
        let flags = &self.flags;
        let ap = self.from.ap;
        match (flags.opcode, flags.ap) {
            (Opcode::Call, _) => ap.add(Felt::from(2)),
            (_, ApKind::Keep) => ap,
            (_, ApKind::Add) => ap.add(res),
            (_, ApKind::Inc) => ap.add(Felt::from(1)),
        }
    }

    fn next_fp(&self, dst: Felt) -> Felt
        ensures { result ≡ fp_after self.now.flags.opcode self.now.from dst }
    {
        let flags = &self.flags;
        match flags.opcode {
            Opcode::Nop | Opcode::AssertEq => self.from.fp,
            Opcode::Call => self.from.ap.add(Felt::from(2)),
            Opcode::Ret => dst,
        }
    }
}

/// Passes where the two words are equal.
fn equal(left: Felt, right: Felt, fault: StepFault) -> Result<(), StepFault>
    ensures { result ≡ equal_or left right fault }
{
    if left == right { Ok(()) } else { Err(fault) }
}
