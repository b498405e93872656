//! Printing: code in, its text out. Each function adds the text of a form to the end of `text`.

ghost use Rattle.std.specs.Prelude.{◌≡◌, ◌++◌, ◌<◌, OnOk, IfOk, codes};
ghost use Rattle.std.specs.String.{string_bytes};
ghost use Rattle.felt64.specs.Field.{modulus};
ghost use Rattle.casm_text.specs.Printing.{register_text, imm_text, cell_text, operand_text, double_text, res_text, ending_text, base_text, jnz_text, instr_text, printed};
ghost use Rattle.casm_word.specs.Bounds.{IsInstrInField, IsResInField, IsOperandInField, IsInstrNear, IsResNear, IsOperandNear};
ghost use Rattle.casm_word.specs.Offset.{IsNear};
ghost use Rattle.casm_text.specs.Text.{Text, standard};

use casm_word::{CellRef, Code, Instr, Operand, Reg, Res};
use felt64::MODULUS;
use itoa::Buffer;
use std::alloc::{AllocError, Global};

/// The register of a cell, with what stands before and behind it.
fn push_register(text: &mut String, reg: Reg) -> Result<(), AllocError>
    ensures { OnOk result (string_bytes text.new ≡ string_bytes text.old ++ register_text reg) }
{
    match reg {
        Reg::Ap => text.push_str("[ap + "),
        Reg::Fp => text.push_str("[fp + "),
    }
}

/// A cell.
#[tactic(auto, unfolding(crate::specs::Printing::cell_text))]
fn push_cell(text: &mut String, cell: CellRef) -> Result<(), AllocError>
    ensures text { OnOk result (string_bytes text.new ≡ string_bytes text.old ++ cell_text cell) }
    ensures near { OnOk result (IsNear cell.off) }
{
    push_register(text, cell.reg)?;
    text.push_str(Buffer::new().format(cell.off))?;
    text.push_str("]")
}

/// An immediate, as a negative number where that is nearer to 0.
fn push_imm(text: &mut String, n: u64) -> Result<(), AllocError>
    requires { n < modulus }
    ensures { OnOk result (string_bytes text.new ≡ string_bytes text.old ++ imm_text n) }
{
    if n > (MODULUS - 1) / 2 {
        text.push_str("-")?;
        text.push_str(Buffer::new().format(MODULUS - n))
    } else {
        text.push_str(Buffer::new().format(n))
    }
}

/// A cell or an immediate.
fn push_operand(text: &mut String, operand: Operand) -> Result<(), AllocError>
    requires { IsOperandInField operand }
    ensures text { OnOk result (string_bytes text.new ≡ string_bytes text.old ++ operand_text operand) }
    ensures near { OnOk result (IsOperandNear operand) }
{
    match operand {
        Operand::Cell(cell) => push_cell(text, cell),
        Operand::Imm(n) => push_imm(text, n),
    }
}

/// A double cell.
fn push_double(text: &mut String, cell: CellRef, inner: i16) -> Result<(), AllocError>
    ensures text { OnOk result (string_bytes text.new ≡ string_bytes text.old ++ double_text cell inner) }
    ensures near { OnOk result (IsNear cell.off × IsNear inner) }
{
    text.push_str("[")?;
    push_cell(text, cell)?;
    text.push_str(" + ")?;
    text.push_str(Buffer::new().format(inner))?;
    text.push_str("]")
}

/// What an instruction's operands give.
#[tactic(auto, unfolding(crate::specs::Printing::res_text))]
fn push_res(text: &mut String, res: Res) -> Result<(), AllocError>
    requires { IsResInField res }
    ensures text { OnOk result (string_bytes text.new ≡ string_bytes text.old ++ res_text res) }
    ensures near { OnOk result (IsResNear res) }
{
    match res {
        Res::Cell(cell) => push_cell(text, cell),
        Res::Double(cell, inner) => push_double(text, cell, inner),
        Res::Imm(n) => push_imm(text, n),
        Res::Add(cell, operand) => {
            push_cell(text, cell)?;
            text.push_str(" + ")?;
            push_operand(text, operand)
        }
        Res::Mul(cell, operand) => {
            push_cell(text, cell)?;
            text.push_str(" * ")?;
            push_operand(text, operand)
        }
    }
}

/// The end of an instruction and of its line.
fn push_ending(text: &mut String, ap_inc: bool) -> Result<(), AllocError>
    ensures { OnOk result (string_bytes text.new ≡ string_bytes text.old ++ ending_text ap_inc) }
{
    if ap_inc {
        text.push_str(", ap++;\n")
    } else {
        text.push_str(";\n")
    }
}

/// Whether a target is a distance.
fn push_base(text: &mut String, rel: bool) -> Result<(), AllocError>
    ensures { OnOk result (string_bytes text.new ≡ string_bytes text.old ++ base_text rel) }
{
    if rel {
        text.push_str("rel ")
    } else {
        text.push_str("abs ")
    }
}

/// A jump with a condition.
fn push_jnz(text: &mut String, cond: CellRef, to: Operand, ap_inc: bool) -> Result<(), AllocError>
    requires { IsOperandInField to }
    ensures text { OnOk result (string_bytes text.new ≡ string_bytes text.old ++ jnz_text cond to ap_inc) }
    ensures near { OnOk result (IsNear cond.off × IsOperandNear to) }
{
    text.push_str("jmp rel ")?;
    push_operand(text, to)?;
    text.push_str(" if ")?;
    push_cell(text, cond)?;
    text.push_str(" != 0")?;
    push_ending(text, ap_inc)
}

/// An instruction and its line end.
#[tactic(auto, unfolding(crate::specs::Printing::instr_text))]
fn push_instr(text: &mut String, i: &Instr) -> Result<(), AllocError>
    requires { IsInstrInField i.now }
    ensures text { OnOk result (string_bytes text.new ≡ string_bytes text.old ++ instr_text i.now) }
    ensures near { OnOk result (IsInstrNear i.now) }
{
    match *i {
        Instr::AssertEq { dst, res, ap_inc } => {
            push_cell(text, dst)?;
            text.push_str(" = ")?;
            push_res(text, res)?;
            push_ending(text, ap_inc)
        }
        Instr::Jump { rel, to, ap_inc } => {
            text.push_str("jmp ")?;
            push_base(text, rel)?;
            push_res(text, to)?;
            push_ending(text, ap_inc)
        }
        Instr::Jnz { cond, to, ap_inc } => push_jnz(text, cond, to, ap_inc),
        Instr::Call { rel, to } => {
            text.push_str("call ")?;
            push_base(text, rel)?;
            push_operand(text, to)?;
            text.push_str(";\n")
        }
        Instr::AddAp { by } => {
            text.push_str("ap += ")?;
            push_res(text, by)?;
            text.push_str(";\n")
        }
        Instr::Ret => text.push_str("ret;\n"),
    }
}

/// The text of code: each instruction on a line of its own, with single spaces.
///
/// Assembling it gives the code again.
pub fn print(alloc: Global, code: &Code) -> Result<String, AllocError>
    ensures printed { IfOk result (λ text. string_bytes text ≡ printed code.now) }
    ensures is_text { IfOk result (λ text. Text standard code.now (string_bytes text)) }
{
    let mut text = String::new(alloc);
    for i in code.instrs() {
        push_instr(&mut text, i)?;
    }
    Ok(text)
}
