//! The text of a gas plan.

ghost use Rattle.std.specs.Prelude.{◌≡◌, ◌++◌, IfOk, OnOk, decimal, string_bytes};
ghost use Rattle.gas_solver.specs.Printing.{entry_line, line_end, plan_text, statement_line};

use crate::plan::GasPlan;
use itoa::Buffer;
use std::alloc::{AllocError, Global};

/// The text of a plan: a line for what a run needs to begin, and then one for each statement.
pub fn print(alloc: Global, plan: &GasPlan) -> Result<String, AllocError>
    ensures { IfOk result (λ text. string_bytes text ≡ plan_text plan.now) }
{
    let mut text = String::new(alloc);
    push_entry(&mut text, plan.entry())?;
    for statement in 0..plan.len() {
        push_line(
            &mut text,
            statement,
            plan.need(statement),
            plan.amount(statement),
        )?;
    }
    Ok(text)
}

/// The line of what a run needs to begin.
fn push_entry(text: &mut String, entry: u64) -> Result<(), AllocError>
    ensures { OnOk result (string_bytes text.new ≡ string_bytes text.old ++ entry_line entry) }
{
    text.push_str("entry ")?;
    push_number(text, entry)?;
    text.push_str("\n")
}

/// The line of a statement.
fn push_line(
    text: &mut String,
    statement: usize,
    need: u64,
    amount: Option<u64>,
) -> Result<(), AllocError>
    ensures { OnOk result (string_bytes text.new ≡ string_bytes text.old ++ statement_line statement need amount) }
{
    push_number(text, statement as u64)?;
    text.push_str(" need ")?;
    push_number(text, need)?;
    push_end(text, amount)
}

/// The end of a statement's line, with its amount if it has one.
fn push_end(text: &mut String, amount: Option<u64>) -> Result<(), AllocError>
    ensures { OnOk result (string_bytes text.new ≡ string_bytes text.old ++ line_end amount) }
{
    match amount {
        None => text.push_str("\n"),
        Some(amount) => {
            text.push_str(" amount ")?;
            push_number(text, amount)?;
            text.push_str("\n")
        }
    }
}

/// A number in decimal.
fn push_number(text: &mut String, n: u64) -> Result<(), AllocError>
    ensures { OnOk result (string_bytes text.new ≡ string_bytes text.old ++ decimal n) }
{
    text.push_str(Buffer::new().format(n))
}
