//! How many branches and functions lead to each statement.

ghost use Rattle.std.specs.Prelude.{◌≡◌, ◌<◌, ◌+◌, ◌^◌, ◌==◌, ℕ, min, length, count_by, Some, IfOk, ◌∷◌, []};
ghost use Rattle.std.specs.List.{slice_get};
ghost use Rattle.linear_check.specs.Statements as statements;
ghost use Rattle.linear_check.specs.Counting.{Counts, CountsMore};

use crate::steps::target_of;
use sierra_types::{Branch, Function, Program, Statement};
use std::alloc::{AllocError, Global};

/// The number of predecessors of each statement, with 2 for 2 and more.
pub(crate) fn count_predecessors(alloc: Global, program: &Program) -> Result<Vec<u8>, AllocError>
    ensures { IfOk result (λ counts. Counts counts.items (length program.now.statements) (statements.predecessors program.now)) }
{
    let mut counts = vec![in alloc; 0u8; program.statements.items().len()]?;
    count_statements(program.statements.items(), &mut counts);
    count_entries(program.functions.items(), &mut counts);
    Ok(counts)
}

/// Counts the functions where they begin.
fn count_entries(functions: &[Function], counts: &mut Vec<u8>)
    ensures counted { CountsMore counts.old.items counts.new.items (λ t. count_by (λ f. f.entry == t) functions.now) }
    ensures long { length counts.new.items ≡ length counts.old.items }
{
    for function in functions {
        count(function.entry, counts);
    }
}

/// Counts the branches of all statements.
fn count_statements(all: &[Statement], counts: &mut Vec<u8>)
    ensures counted { CountsMore counts.old.items counts.new.items (λ t. statements.branches_to t 0 all.now) }
    ensures long { length counts.new.items ≡ length counts.old.items }
{
    for (s, statement) in all.iter().enumerate() {
        count_leads(s, statement, counts);
    }
}

/// Counts where one statement leads.
fn count_leads(s: usize, statement: &Statement, counts: &mut Vec<u8>)
    requires { s + 1 < 2 ^ 64 }
    ensures counted { CountsMore counts.old.items counts.new.items (λ t. count_by (λ u. u == t) (statements.leads_of s statement.now)) }
    ensures long { length counts.new.items ≡ length counts.old.items }
{
    match statement {
        Statement::Invoke { branches, .. } => count_branches(s, branches.items(), counts),
        Statement::Return { .. } => {}
    }
}

/// Counts the branches of one statement.
fn count_branches(statement: usize, branches: &[Branch], counts: &mut Vec<u8>)
    requires { statement + 1 < 2 ^ 64 }
    ensures counted { CountsMore counts.old.items counts.new.items (λ t. count_by (λ u. u == t) (statements.targets_of statement branches.now)) }
    ensures long { length counts.new.items ≡ length counts.old.items }
{
    for branch in branches {
        count(target_of(statement, branch.target), counts);
    }
}

/// Counts one more that leads to a statement, if there is one with this number.
fn count(target: u64, counts: &mut Vec<u8>)
    ensures counted { CountsMore counts.old.items counts.new.items (λ t. count_by (λ u. u == t) (target ∷ [])) }
    ensures long { length counts.new.items ≡ length counts.old.items }
{
    let t = target as usize;
    if t < counts.len() {
        counts[t] = counts[t].min(1) + 1;
    }
}
