//! The text of a verdict: a verdict comes in, and its four lines go out. The tool writes them.

ghost use Rattle.std.specs.Prelude.{◌≡◌, Some, IfOk, string_bytes};
ghost use Rattle.first_form.specs.Texts.{value_text, values_text, verdict_text};

use crate::verdict::{Value, Verdict};
use std::alloc::{AllocError, Global};
use std::fmt;

impl fmt::Display for Value {
    ghost output = { λ value. Some (value_text value) };

    fn fmt<W: fmt::Write>(&self, f: &mut fmt::Formatter<W>) -> fmt::Result {
        match self {
            Value::Felt(n) => fmt::Display::fmt(n, f),
        }
    }
}

/// The four lines of a verdict, as the tool writes them.
pub fn verdict_text(alloc: Global, verdict: &Verdict) -> Result<String, AllocError>
    ensures { IfOk result (λ text. string_bytes text ≡ verdict_text verdict.now) }
{
    let outcome = &verdict.outcome;
    let word = if outcome.panic { "panic" } else { "value" };
    let values = values_text(alloc, outcome.values.as_slice())?;
    let gas = outcome.gas_used;
    let steps = verdict.steps;
    let checks = verdict.checks;
    format!(in alloc; "{word} {values}\ngas used {gas}\nsteps {steps}\nchecks {checks}\n")
}

/// The values, with a comma and a space between two, or `()` where there is none.
fn values_text(alloc: Global, values: &[Value]) -> Result<String, AllocError>
    ensures { IfOk result (λ text. string_bytes text ≡ values_text values.now) }
{
    let Some((first, others)) = values.split_first() else {
        return String::from_str(alloc, "()");
    };
    let mut text = first.to_string(alloc)?;
    for value in others {
        text.push_str(", ")?;
        text.push_str(value.to_string(alloc)?.as_str())?;
    }
    Ok(text)
}
