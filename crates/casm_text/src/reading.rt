//! The readers of CASM text, a function for each form. Each takes a form from the head of `rest`; where it stops,
//! `rest` begins at the byte with which no text goes on.

ghost use Rattle.std.specs.Prelude.{◌≡◌, ◌+◌, ◌≤◌, ◌<◌, ◌^◌, IfOk};
ghost use Rattle.felt64.specs.Field.{modulus};
ghost use Rattle.casm_word.specs.Offset.{minus};
ghost use Rattle.text_reading.specs.Given.{Gives};
ghost use Rattle.casm_text.specs.Text.{standard};
ghost use Rattle.casm_text.specs.Reading.{register_at, ending_at, offset_at, imm_at, inner_at, cell_rest_at, cell_at, operand_at, behind_cell_at, double_at, bracket_at, res_at, assert_at, jnz_at, jump_end_at, relative_end_at, jump_at, base_at, call_at, add_ap_at, ret_at, instr_at};

use crate::fault::NumberKind;
use casm_word::{CellRef, Instr, Operand, Reg, Res};
use felt64::MODULUS;
use text_reading::{Stop, is_next, mark, number, word};

/// `ap` or `fp`.
#[tactic(auto, unfolding(crate::specs::Reading::register_at))]
fn register(rest: &mut &[u8]) -> Result<Reg, Stop<NumberKind>>
    ensures { Gives (λ reg. reg) result rest.new.now (register_at rest.old.now) }
{
    if is_next(rest, b'a') {
        word(rest, b"ap")?;
        Ok(Reg::Ap)
    } else {
        word(rest, b"fp")?;
        Ok(Reg::Fp)
    }
}

/// The end of an instruction, and whether ap moves there by one.
#[tactic(auto, unfolding(crate::specs::Reading::ending_at))]
fn ending(rest: &mut &[u8]) -> Result<bool, Stop<NumberKind>>
    ensures { Gives (λ ap_inc. ap_inc) result rest.new.now (ending_at rest.old.now) }
{
    if is_next(rest, b',') {
        mark(rest, b",")?;
        word(rest, b"ap")?;
        mark(rest, b"++")?;
        mark(rest, b";")?;
        Ok(true)
    } else {
        mark(rest, b";")?;
        Ok(false)
    }
}

/// The offset `-n`.
fn negative(n: u128) -> i16
    requires { n ≤ 2 ^ 15 }
    ensures { result ≡ minus n }
{
    (-(n as i32)) as i16
}

/// An offset in cells.
#[tactic(auto, unfolding(crate::specs::Reading::offset_at))]
fn offset(rest: &mut &[u8]) -> Result<i16, Stop<NumberKind>>
    ensures { Gives (λ off. off) result rest.new.now (offset_at standard rest.old.now) }
{
    if is_next(rest, b'-') {
        mark(rest, b"-")?;
        Ok(negative(number(rest, 32768, false, NumberKind::Offset)?))
    } else {
        Ok(number(rest, 32767, true, NumberKind::Offset)? as i16)
    }
}

/// An immediate: `-n` is the field's order less `n`.
#[tactic(auto, unfolding(crate::specs::Reading::imm_at))]
fn imm(rest: &mut &[u8]) -> Result<u64, Stop<NumberKind>>
    ensures { Gives (λ n. n) result rest.new.now (imm_at standard rest.old.now) }
{
    let greatest = MODULUS as u128 - 1;
    if is_next(rest, b'-') {
        mark(rest, b"-")?;
        let n = number(rest, greatest, false, NumberKind::Imm)?;
        Ok(MODULUS - n as u64)
    } else {
        let n = number(rest, greatest, true, NumberKind::Imm)?;
        Ok(n as u64)
    }
}

/// `+ int ]`, the offset and the end of a cell.
#[tactic(auto, unfolding(crate::specs::Reading::inner_at))]
fn inner(rest: &mut &[u8]) -> Result<i16, Stop<NumberKind>>
    ensures { Gives (λ off. off) result rest.new.now (inner_at standard rest.old.now) }
{
    mark(rest, b"+")?;
    let off = offset(rest)?;
    mark(rest, b"]")?;
    Ok(off)
}

/// A cell, from behind its `[`.
#[tactic(auto, unfolding(crate::specs::Reading::cell_rest_at))]
fn cell_rest(rest: &mut &[u8]) -> Result<CellRef, Stop<NumberKind>>
    ensures { Gives (λ cell. cell) result rest.new.now (cell_rest_at standard rest.old.now) }
{
    let reg = register(rest)?;
    let off = inner(rest)?;
    Ok(CellRef { reg, off })
}

/// A cell.
#[tactic(auto, unfolding(crate::specs::Reading::cell_at))]
fn cell(rest: &mut &[u8]) -> Result<CellRef, Stop<NumberKind>>
    ensures { Gives (λ cell. cell) result rest.new.now (cell_at standard rest.old.now) }
{
    mark(rest, b"[")?;
    cell_rest(rest)
}

/// A cell or an immediate.
#[tactic(auto, unfolding(crate::specs::Reading::operand_at))]
fn operand(rest: &mut &[u8]) -> Result<Operand, Stop<NumberKind>>
    ensures { Gives (λ operand. operand) result rest.new.now (operand_at standard rest.old.now) }
{
    if is_next(rest, b'[') {
        Ok(Operand::Cell(cell(rest)?))
    } else {
        Ok(Operand::Imm(imm(rest)?))
    }
}

/// The result that begins with this cell.
#[tactic(auto, unfolding(crate::specs::Reading::behind_cell_at))]
fn behind_cell(rest: &mut &[u8], cell: CellRef) -> Result<Res, Stop<NumberKind>>
    ensures { Gives (λ res. res) result rest.new.now (behind_cell_at standard cell rest.old.now) }
{
    if is_next(rest, b'+') {
        mark(rest, b"+")?;
        Ok(Res::Add(cell, operand(rest)?))
    } else if is_next(rest, b'*') {
        mark(rest, b"*")?;
        Ok(Res::Mul(cell, operand(rest)?))
    } else {
        Ok(Res::Cell(cell))
    }
}

/// A double cell, from behind its first `[`.
#[tactic(auto, unfolding(crate::specs::Reading::double_at))]
fn double(rest: &mut &[u8]) -> Result<Res, Stop<NumberKind>>
    ensures { Gives (λ res. res) result rest.new.now (double_at standard rest.old.now) }
{
    let cell = cell(rest)?;
    let off = inner(rest)?;
    Ok(Res::Double(cell, off))
}

/// A result that begins with `[`, from behind it.
#[tactic(auto, unfolding(crate::specs::Reading::bracket_at))]
fn bracket(rest: &mut &[u8]) -> Result<Res, Stop<NumberKind>>
    ensures { Gives (λ res. res) result rest.new.now (bracket_at standard rest.old.now) }
{
    if is_next(rest, b'[') {
        double(rest)
    } else {
        let cell = cell_rest(rest)?;
        behind_cell(rest, cell)
    }
}

/// What an instruction's operands give.
#[tactic(auto, unfolding(crate::specs::Reading::res_at))]
fn res(rest: &mut &[u8]) -> Result<Res, Stop<NumberKind>>
    ensures { Gives (λ res. res) result rest.new.now (res_at standard rest.old.now) }
{
    if is_next(rest, b'[') {
        mark(rest, b"[")?;
        bracket(rest)
    } else {
        Ok(Res::Imm(imm(rest)?))
    }
}

/// `cell = res`.
#[tactic(auto, unfolding(crate::specs::Reading::assert_at))]
fn assertion(rest: &mut &[u8]) -> Result<Instr, Stop<NumberKind>>
    ensures { Gives (λ i. i) result rest.new.now (assert_at standard rest.old.now) }
{
    let dst = cell(rest)?;
    mark(rest, b"=")?;
    let res = res(rest)?;
    let ap_inc = ending(rest)?;
    Ok(Instr::AssertEq { dst, res, ap_inc })
}

/// The condition of a jump by this distance.
#[tactic(auto, unfolding(crate::specs::Reading::jnz_at))]
fn jnz(rest: &mut &[u8], to: Operand) -> Result<Instr, Stop<NumberKind>>
    ensures { Gives (λ i. i) result rest.new.now (jnz_at standard to rest.old.now) }
{
    word(rest, b"if")?;
    let cond = cell(rest)?;
    mark(rest, b"!=")?;
    mark(rest, b"0")?;
    let ap_inc = ending(rest)?;
    Ok(Instr::Jnz { cond, to, ap_inc })
}

/// The end of a jump without a condition.
#[tactic(auto, unfolding(crate::specs::Reading::jump_end_at))]
fn jump_end(rest: &mut &[u8], rel: bool, to: Res) -> Result<Instr, Stop<NumberKind>>
    ensures { Gives (λ i. i) result rest.new.now (jump_end_at rel to rest.old.now) }
{
    let ap_inc = ending(rest)?;
    Ok(Instr::Jump { rel, to, ap_inc })
}

/// What follows `jmp rel to`: a cell or an immediate may have a condition.
#[tactic(auto, unfolding(crate::specs::Reading::relative_end_at))]
fn relative_end(rest: &mut &[u8], to: Res) -> Result<Instr, Stop<NumberKind>>
    ensures { Gives (λ i. i) result rest.new.now (relative_end_at standard to rest.old.now) }
{
    match to {
        Res::Cell(cell) => {
            if is_next(rest, b'i') {
                jnz(rest, Operand::Cell(cell))
            } else {
                jump_end(rest, true, Res::Cell(cell))
            }
        }
        Res::Imm(n) => {
            if is_next(rest, b'i') {
                jnz(rest, Operand::Imm(n))
            } else {
                jump_end(rest, true, Res::Imm(n))
            }
        }
        Res::Double(cell, inner) => jump_end(rest, true, Res::Double(cell, inner)),
        Res::Add(cell, operand) => jump_end(rest, true, Res::Add(cell, operand)),
        Res::Mul(cell, operand) => jump_end(rest, true, Res::Mul(cell, operand)),
    }
}

/// `jmp rel` and `jmp abs`.
#[tactic(auto, unfolding(crate::specs::Reading::jump_at))]
fn jump(rest: &mut &[u8]) -> Result<Instr, Stop<NumberKind>>
    ensures { Gives (λ i. i) result rest.new.now (jump_at standard rest.old.now) }
{
    word(rest, b"jmp")?;
    if is_next(rest, b'r') {
        word(rest, b"rel")?;
        let to = res(rest)?;
        relative_end(rest, to)
    } else {
        word(rest, b"abs")?;
        let to = res(rest)?;
        jump_end(rest, false, to)
    }
}

/// `rel` or `abs`: whether the target is a distance.
#[tactic(auto, unfolding(crate::specs::Reading::base_at))]
fn base(rest: &mut &[u8]) -> Result<bool, Stop<NumberKind>>
    ensures { Gives (λ rel. rel) result rest.new.now (base_at rest.old.now) }
{
    if is_next(rest, b'r') {
        word(rest, b"rel")?;
        Ok(true)
    } else {
        word(rest, b"abs")?;
        Ok(false)
    }
}

/// `call rel` and `call abs`.
#[tactic(auto, unfolding(crate::specs::Reading::call_at))]
fn call(rest: &mut &[u8]) -> Result<Instr, Stop<NumberKind>>
    ensures { Gives (λ i. i) result rest.new.now (call_at standard rest.old.now) }
{
    word(rest, b"call")?;
    let rel = base(rest)?;
    let to = operand(rest)?;
    mark(rest, b";")?;
    Ok(Instr::Call { rel, to })
}

/// `ap += res`.
#[tactic(auto, unfolding(crate::specs::Reading::add_ap_at))]
fn add_ap(rest: &mut &[u8]) -> Result<Instr, Stop<NumberKind>>
    ensures { Gives (λ i. i) result rest.new.now (add_ap_at standard rest.old.now) }
{
    word(rest, b"ap")?;
    mark(rest, b"+=")?;
    let by = res(rest)?;
    mark(rest, b";")?;
    Ok(Instr::AddAp { by })
}

/// `ret`.
#[tactic(auto, unfolding(crate::specs::Reading::ret_at))]
fn ret(rest: &mut &[u8]) -> Result<Instr, Stop<NumberKind>>
    ensures { Gives (λ i. i) result rest.new.now (ret_at rest.old.now) }
{
    word(rest, b"ret")?;
    mark(rest, b";")?;
    Ok(Instr::Ret)
}

/// An instruction, by its first byte.
#[tactic(auto, unfolding(crate::specs::Reading::instr_at))]
pub fn instr(rest: &mut &[u8]) -> Result<Instr, Stop<NumberKind>>
    ensures { Gives (λ i. i) result rest.new.now (instr_at standard rest.old.now) }
{
    if is_next(rest, b'[') {
        assertion(rest)
    } else if is_next(rest, b'j') {
        jump(rest)
    } else if is_next(rest, b'c') {
        call(rest)
    } else if is_next(rest, b'a') {
        add_ap(rest)
    } else {
        ret(rest)
    }
}
