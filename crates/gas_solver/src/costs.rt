//! The terms and the amounts of a program's statements.

ghost use Rattle.std.specs.Prelude.{◌≡◌, ◌<◌, ◌++◌, ◌∷◌, [], ◌+◌, ◌*◌, ◌^◌, ℕ, length, Some, IfOk, OnOk, slice_index};
ghost use Rattle.std.specs.List.{slice_get};
ghost use Rattle.std.specs.Option.{option_copied};
ghost use Rattle.sierra_types.specs.declared.program.Branch.{Branch as BranchOf};
ghost use Rattle.linear_check.specs.Statements as statements;
ghost use Rattle.cost_table.specs.Costs as charges;
ghost use Rattle.gas_solver.specs.Known.{HasSignature, IsCallable, IsPrepared};
ghost use Rattle.gas_solver.specs.Plans as plans;
ghost use Rattle.gas_solver.specs.Terms as terms;

use cost_table::{Cost, cost};
use least_needs::{Targets, Term, Terms};
use libfunc_registry::{Libfunc, Sig};
use sierra_types::{Branch, Name, Program, Statement, Target};
use std::alloc::{AllocError, Global};
use type_table::{Positions, Types};

/// The gas of a step.
const STEP: u64 = 100;
/// The gas of a range check.
const CHECK: u64 = 70;
/// The gas of a hole.
const HOLE: u64 = 10;

/// What a return needs: it takes one step.
const RETURN: Term = Term {
    cost: STEP,
    targets: Targets::Nowhere,
};

/// A program with its types and signatures.
#[derive(Drop)]
pub(crate) struct Costs<'a> {
    /// The program.
    pub program: &'a Program,
    /// Its types and functions.
    pub types: &'a Types,
    /// The signatures of its declared libfuncs, in order.
    pub sigs: &'a [Sig],
    /// Where libfuncs are declared.
    pub libfuncs: Positions,
}

impl Costs<'_> {
    /// The terms of all statements.
    pub fn all_terms(&self, alloc: Global) -> Result<Terms, AllocError>
        requires { IsPrepared self.now.program.now self.now.types.now self.now.sigs.now self.now.libfuncs }
        ensures { IfOk result (λ all. all ≡ terms.program_terms self.now.program.now self.now.types.now self.now.sigs.now) }
    {
        let mut all = Terms::new(alloc);
        let mut own = Vec::new(alloc);
        for (s, statement) in self.program.statements.items().iter().enumerate() {
            own.clear();
            self.push_terms(&mut own, s, statement)?;
            all.add(&own)?;
        }
        Ok(all)
    }

    /// The amounts of all statements by these needs.
    pub fn amounts(&self, alloc: Global, needs: &[u64]) -> Result<Vec<Option<u64>>, AllocError>
        requires prepared { IsPrepared self.now.program.now self.now.types.now self.now.sigs.now self.now.libfuncs }
        requires all { length needs.now ≡ length self.now.program.now.statements }
        ensures { IfOk result (λ amounts. amounts.items ≡ plans.amounts_from self.now.program.now self.now.sigs.now (slice_index needs.now) 0 self.now.program.now.statements) }
    {
        let mut amounts = Vec::new(alloc);
        for (s, statement) in self.program.statements.items().iter().enumerate() {
            amounts.push(self.amount(needs, s, statement))?;
        }
        Ok(amounts)
    }

    /// The statement that a function begins with.
    pub fn entry(&self, function: usize) -> usize
        requires { function < length self.now.program.now.functions }
        ensures { result ≡ terms.entry_of self.now.program.now function }
    {
        self.program.functions.items()[function].entry as usize
    }

    /// Adds the terms of a statement to an empty list.
    fn push_terms(
        &self,
        own: &mut Vec<Term>,
        s: usize,
        statement: &Statement,
    ) -> Result<(), AllocError>
        requires prepared { IsPrepared self.now.program.now self.now.types.now self.now.sigs.now self.now.libfuncs }
        requires here { slice_get self.now.program.now.statements s ≡ Some statement.now }
        requires few { s + 1 < 2 ^ 64 }
        requires empty { own.old.items ≡ [] }
        ensures { OnOk result (own.new.items ≡ terms.statement_terms self.now.program.now self.now.types.now self.now.sigs.now s statement.now) }
    {
        match statement {
            Statement::Return { .. } => push(own, RETURN),
            Statement::Invoke {
                libfunc,
                branches,
                ..
            } => match self.sig_of(libfunc) {
                Some(sig) => self.push_branches(own, s, sig, branches.items()),
                None => Ok(()),
            },
        }
    }

    /// Adds the terms of the branches of a statement to an empty list.
    fn push_branches(
        &self,
        own: &mut Vec<Term>,
        s: usize,
        sig: &Sig,
        branches: &[Branch],
    ) -> Result<(), AllocError>
        requires signature { HasSignature self.now.program.now self.now.types.now s sig.now branches.now }
        requires few { s + 1 < 2 ^ 64 }
        requires empty { own.old.items ≡ [] }
        ensures { OnOk result (own.new.items ≡ terms.branch_terms self.now.program.now self.now.types.now sig.now s 0 branches.now) }
    {
        for (k, branch) in branches.iter().enumerate() {
            let target = target_of(s, branch.target) as usize;
            let term = Term {
                cost: charge(cost(self.types, sig, k)),
                targets: self.branch_targets(sig.libfunc, k, target),
            };
            push(own, term)?;
        }
        Ok(())
    }

    /// Where a branch leads, by its number and target, as far as needs are added.
    fn branch_targets(&self, libfunc: Libfunc, branch: usize, target: usize) -> Targets
        requires { IsCallable self.now.program.now libfunc }
        ensures { result ≡ terms.branch_targets self.now.program.now libfunc branch target }
    {
        match libfunc {
            Libfunc::FunctionCall(callee) => Targets::Two(self.entry(callee), target),
            Libfunc::WithdrawGas if branch == 0 => Targets::Nowhere,
            _ => Targets::One(target),
        }
    }

    /// The amount of a statement by these needs.
    fn amount(&self, needs: &[u64], s: usize, statement: &Statement) -> Option<u64>
        requires prepared { IsPrepared self.now.program.now self.now.types.now self.now.sigs.now self.now.libfuncs }
        requires here { slice_get self.now.program.now.statements s ≡ Some statement.now }
        requires few { s + 1 < 2 ^ 64 }
        requires all { length needs.now ≡ length self.now.program.now.statements }
        ensures { result ≡ plans.amount_of self.now.program.now self.now.sigs.now (slice_index needs.now) s statement.now }
    {
        match statement {
            Statement::Return { .. } => None,
            Statement::Invoke {
                libfunc,
                branches,
                ..
            } => amount_by(needs, s, branches.items(), self.sig_of(libfunc)?.libfunc),
        }
    }

    /// The signature of the libfunc that is declared with this id.
    fn sig_of(&self, id: &Name) -> Option<&Sig>
        requires { IsPrepared self.now.program.now self.now.types.now self.now.sigs.now self.now.libfuncs }
        ensures { option_copied result ≡ statements.declared self.now.program.now self.now.sigs.now id.now }
    {
        self.sigs.get(self.libfuncs.find(id.bytes())?)
    }
}

/// Adds a term at the end.
fn push(own: &mut Vec<Term>, term: Term) -> Result<(), AllocError>
    ensures { OnOk result (own.new.items ≡ own.old.items ++ term ∷ []) }
{
    Ok(own.push(term)?)
}

/// The amount of a libfunc with these branches: what its target needs where `withdraw_gas` succeeds.
fn amount_by(needs: &[u64], s: usize, branches: &[Branch], libfunc: Libfunc) -> Option<u64>
    requires few { s + 1 < 2 ^ 64 }
    requires inside { (k : ℕ) (b : BranchOf) → slice_get branches.now k ≡ Some b → statements.target_of s b.target < length needs.now }
    ensures { result ≡ plans.amount_by (slice_index needs.now) s branches.now libfunc }
{
    let success = branches.first()?;
    match libfunc {
        Libfunc::WithdrawGas => Some(needs[target_of(s, success.target) as usize]),
        _ => None,
    }
}

/// The gas of a branch.
fn charge(cost: Cost) -> u64
    ensures { result ≡ 100 * cost.steps + 70 * cost.checks + 10 * cost.holes }
{
    STEP * u64::from(cost.steps) + CHECK * u64::from(cost.checks) + HOLE * u64::from(cost.holes)
}

/// Where a branch of a statement leads.
fn target_of(s: usize, target: Target) -> u64
    requires { s + 1 < 2 ^ 64 }
    ensures { result ≡ statements.target_of s target }
{
    match target {
        Target::Fallthrough => s as u64 + 1,
        Target::To(number) => number,
    }
}
