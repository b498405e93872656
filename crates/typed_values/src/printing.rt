//! The texts of values and answers.

ghost use Rattle.std.specs.Prelude.{◌≡◌, ◌++◌, ℕ, List, map, IfOk, OnOk};
ghost use Rattle.std.specs.String.{string_bytes};
ghost use Rattle.byte_reading.specs.Decimal.{decimal_text};
ghost use Rattle.value_trees.specs.Meant.{meant};
ghost use Rattle.value_trees.specs.Val.{vals_of};
ghost use Rattle.typed_values.specs.Shown.{outcome_meant, verdict_meant};
ghost use Rattle.typed_values.specs.Texts.{value_text, values_text, results_text, kind_of, outcome_text, verdict_text};
ghost use Rattle.typed_values.specs.Listing.{next_text};

use crate::outcome::{Outcome, Verdict};
use itoa::Buffer;
use std::alloc::{AllocError, Global};
use std::collections::VecDeque;
use value_trees::Value;

/// The text of a value of a plain type.
pub fn print_value(alloc: Global, value: &Value) -> Result<String, AllocError>
    ensures { IfOk result (λ text. string_bytes text ≡ value_text (meant value.now)) }
{
    let mut text = String::new(alloc);
    push_value(&mut text, value)?;
    Ok(text)
}

/// The text of an outcome: a line for what main gave, and one for the gas that it used.
pub fn print_outcome(alloc: Global, outcome: &Outcome) -> Result<String, AllocError>
    ensures { IfOk result (λ text. string_bytes text ≡ outcome_text (outcome_meant outcome.now)) }
{
    let mut text = String::new(alloc);
    push_outcome(&mut text, outcome)?;
    Ok(text)
}

/// The text of a verdict: that of its outcome, a line for the steps and one for the checks.
pub fn print_verdict(alloc: Global, verdict: &Verdict) -> Result<String, AllocError>
    ensures { IfOk result (λ text. string_bytes text ≡ verdict_text (verdict_meant verdict.now)) }
{
    let mut text = String::new(alloc);
    push_outcome(&mut text, &verdict.outcome)?;
    text.push_str("steps ")?;
    push_number(&mut text, verdict.steps)?;
    text.push_str("\nchecks ")?;
    push_number(&mut text, verdict.checks)?;
    text.push_str("\n")?;
    Ok(text)
}

/// The two lines of an outcome.
fn push_outcome(text: &mut String, outcome: &Outcome) -> Result<(), AllocError>
    ensures { OnOk result (string_bytes text.new ≡ string_bytes text.old ++ outcome_text (outcome_meant outcome.now)) }
{
    push_kind(text, outcome.panic)?;
    push_results(text, &outcome.values)?;
    text.push_str("\ngas used ")?;
    push_number(text, outcome.gas_used)?;
    text.push_str("\n")
}

/// Whether main panicked.
fn push_kind(text: &mut String, panic: bool) -> Result<(), AllocError>
    ensures { OnOk result (string_bytes text.new ≡ string_bytes text.old ++ kind_of panic) }
{
    if panic {
        text.push_str("panic ")
    } else {
        text.push_str("value ")
    }
}

/// What main gave, with commas between, or `()` where that is nothing.
fn push_results(text: &mut String, values: &Vec<Value>) -> Result<(), AllocError>
    ensures { OnOk result (string_bytes text.new ≡ string_bytes text.old ++ results_text (map meant values.now.items)) }
{
    if values.is_empty() {
        text.push_str("()")
    } else {
        push_members(text, values)
    }
}

/// A number in decimal.
#[tactic(auto, using(crate::proofs::Printed::as_decimal))]
fn push_number(text: &mut String, n: u64) -> Result<(), AllocError>
    ensures { OnOk result (string_bytes text.new ≡ string_bytes text.old ++ decimal_text n) }
{
    text.push_str(Buffer::new().format(n))
}

/// A value.
#[cycle(push)]
#[tactic(auto, using(crate::proofs::Printed::one_more, crate::proofs::Printed::none_left))]
fn push_value(text: &mut String, value: &Value) -> Result<(), AllocError>
    ensures { OnOk result (string_bytes text.new ≡ string_bytes text.old ++ value_text (meant value.now)) }
{
    match value {
        Value::Felt(n) => push_number(text, n.value()),
        Value::Int { n, .. } => push_number(text, *n as u64),
        Value::Struct(members) => {
            text.push_str("(")?;
            push_members(text, members)?;
            text.push_str(")")
        }
        Value::Enum { index, value } => {
            push_number(text, *index as u64)?;
            text.push_str(":")?;
            push_value(text, value)
        }
        Value::Array(elements) => {
            text.push_str("[")?;
            push_elements(text, elements)?;
            text.push_str("]")
        }
        _ => Ok(()),
    }
}

/// A value, behind a comma where it isn't the first.
#[cycle(push)]
#[tactic(auto, using(crate::proofs::Printed::one_more, crate::proofs::Printed::none_left))]
fn push_next(text: &mut String, value: &Value, is_first: bool) -> Result<(), AllocError>
    ensures { OnOk result (string_bytes text.new ≡ string_bytes text.old ++ next_text is_first (meant value.now)) }
{
    if !is_first {
        text.push_str(", ")?;
    }
    push_value(text, value)
}

/// The members of a struct, with commas between.
#[cycle(push)]
#[tactic(auto, using(crate::proofs::Printed::one_more, crate::proofs::Printed::none_left))]
fn push_members(text: &mut String, members: &Vec<Value>) -> Result<(), AllocError>
    ensures { OnOk result (string_bytes text.new ≡ string_bytes text.old ++ values_text (vals_of (map meant members.now.items))) }
{
    let mut is_first = true;
    for member in members {
        push_next(text, member, is_first)?;
        is_first = false;
    }
    Ok(())
}

/// The elements of an array, with commas between.
#[cycle(push)]
#[tactic(auto, using(crate::proofs::Printed::one_more, crate::proofs::Printed::none_left))]
fn push_elements(text: &mut String, elements: &VecDeque<Value>) -> Result<(), AllocError>
    ensures { OnOk result (string_bytes text.new ≡ string_bytes text.old ++ values_text (vals_of (map meant elements.now.items))) }
{
    let mut is_first = true;
    for element in elements {
        push_next(text, element, is_first)?;
        is_first = false;
    }
    Ok(())
}
