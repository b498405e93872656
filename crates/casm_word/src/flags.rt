//! The parts of an instruction word: its offsets and flags (Cairo whitepaper, section 4.4).
//! The machine's step takes them. No value of [`Flags`] joins parts that the rules forbid.

use std::marker::Model;

/// The base from which op1 is read. A word sets at most one of the three flags op1_imm, op1_fp and op1_ap.
#[derive(Clone, Copy, Debug, PartialEq, Eq)]
pub enum Op1 {
    /// No flag: the word of op0.
    Op0,
    /// op1_imm: pc. The operand is an immediate, for which the instruction takes a second cell.
    Imm,
    /// op1_fp: the frame pointer.
    Fp,
    /// op1_ap: the allocation pointer.
    Ap,
}

/// What the operands give, which is called res.
#[derive(Clone, Copy, Debug, PartialEq, Eq)]
pub enum ResKind {
    /// No flag: op1 alone.
    Op1,
    /// res_add: the sum of op0 and op1.
    Add,
    /// res_mul: the product of op0 and op1.
    Mul,
}

/// Where pc goes.
#[derive(Clone, Copy, Debug, PartialEq, Eq)]
pub enum PcKind {
    /// No flag: to the next instruction.
    Next,
    /// pc_jump_abs: to res.
    Abs,
    /// pc_jump_rel: by res.
    Rel,
    /// pc_jnz: by op1 where dst isn't 0, and else to the next instruction.
    Jnz,
}

/// What ap does beside a call.
#[derive(Clone, Copy, Debug, PartialEq, Eq)]
pub enum ApKind {
    /// No flag: it stays.
    Keep,
    /// ap_add: it moves by res.
    Add,
    /// ap_add1: it moves by one.
    Inc,
}

/// What the instruction asserts, and what it does to fp.
#[derive(Clone, Copy, Debug, PartialEq, Eq)]
pub enum Opcode {
    /// No flag: nothing.
    Nop,
    /// opcode_call: writes fp and the return pc, and opens a frame.
    Call,
    /// opcode_ret: goes back to the caller's frame.
    Ret,
    /// opcode_assert_eq: says that dst is res.
    AssertEq,
}

/// An instruction word taken apart. Offsets are in cells.
#[derive(Clone, Copy, Debug, PartialEq, Eq)]
pub struct Flags {
    /// From ap, or from fp under `dst_fp`, to dst.
    pub off_dst: i16,
    /// From ap, or from fp under `op0_fp`, to op0.
    pub off_op0: i16,
    /// From the base that `op1` names to op1.
    pub off_op1: i16,
    /// dst_reg: dst is counted from fp.
    pub dst_fp: bool,
    /// op0_reg: op0 is counted from fp.
    pub op0_fp: bool,
    /// The base of op1.
    pub op1: Op1,
    /// What the operands give.
    pub res: ResKind,
    /// Where pc goes.
    pub pc: PcKind,
    /// What ap does.
    pub ap: ApKind,
    /// What is asserted.
    pub opcode: Opcode,
}

impl Model for Flags {
    ghost use Rattle.casm_word.specs.Parts.{Parts, IsDefined};

    ghost Value = { Parts };

    ghost view = { λ f. record {
      off_dst = f.off_dst;
      off_op0 = f.off_op0;
      off_op1 = f.off_op1;
      dst_fp = f.dst_fp;
      op0_fp = f.op0_fp;
      op1 = f.op1;
      res = f.res;
      pc = f.pc;
      ap = f.ap;
      opcode = f.opcode;
    } };

    ghost invariant = { λ f. IsDefined (record {
      off_dst = f.off_dst;
      off_op0 = f.off_op0;
      off_op1 = f.off_op1;
      dst_fp = f.dst_fp;
      op0_fp = f.op0_fp;
      op1 = f.op1;
      res = f.res;
      pc = f.pc;
      ap = f.ap;
      opcode = f.opcode;
    }) };

    ghost inverse = { λ p. record {
      off_dst = p.off_dst;
      off_op0 = p.off_op0;
      off_op1 = p.off_op1;
      dst_fp = p.dst_fp;
      op0_fp = p.op0_fp;
      op1 = p.op1;
      res = p.res;
      pc = p.pc;
      ap = p.ap;
      opcode = p.opcode;
    } };
}
