//! What a libfunc's statement that passes gives its branches.

ghost use Rattle.std.specs.Prelude.{◌≡◌, ◌<◌, ◌+◌, ◌^◌, ◌∷◌, [], map, length, Ok, Result, ℕ, IfOk, IfSome, OnOk};
ghost use Rattle.std.specs.List.{All};
ghost use Rattle.libfunc_registry.specs.Wanted.{IsBelow, IsPlaced};
ghost use Rattle.libfunc_registry.specs.Fam.{fam_of};
ghost use Rattle.cell_terms.specs.Resolving.{argument};
ghost use Rattle.cost_table.specs.Fits.{IsSignature, IsCloseExpr};
ghost use Rattle.cost_table.specs.Results as rows;
ghost use Rattle.ap_refs.specs.Bounds.{most_moved};
ghost use Rattle.linear_check.specs.Statements as statements;
ghost use Rattle.ap_refs.specs.Flow as flow;
ghost use Rattle.ap_refs.specs.Moves as moving;
ghost use Rattle.ap_refs.specs.Prepared.{CanStep};

use crate::arguments::keep;
use crate::cells::Cells;
use crate::moves;
use crate::place::{Locals, Place};
use crate::stored::Stored;
use casm_word::{At, CellExpr, Reg};
use cost_table::results;
use held_list::Held;
use libfunc_registry::{Libfunc, Sig};
use sierra_types::{Branch, Target};
use std::alloc::{AllocError, Global};
use type_table::{TypeId, Types};

/// A libfunc's statement in which no rule is broken, before its branches.
#[derive(Drop)]
pub struct Passing<'a> {
    /// What the branches' places take.
    pub alloc: Global,
    /// The program's types.
    pub types: &'a Types,
    /// The libfunc's signature.
    pub sig: &'a Sig,
    /// What is known at the statement.
    pub place: &'a Stored,
    /// The cells of the arguments, in order.
    pub args: &'a [CellExpr],
    /// The local state behind the statement.
    pub locals: Locals,
    /// The amount of the statement.
    pub amount: u64,
}

/// Where a branch of a statement leads.
fn target_of(statement: usize, target: Target) -> u64
    requires { statement + 1 < 2 ^ 64 }
    ensures { result ≡ statements.target_of statement target }
{
    match target {
        Target::Fallthrough => statement as u64 + 1,
        Target::To(number) => number,
    }
}

/// The cell of the one result of a branch that has a single cell, where it is known without the row of the libfunc: the cell
/// below ap that is stored, or that of the argument.
fn short_result(
    types: &Types,
    libfunc: Libfunc,
    args: &[CellExpr],
    branch: usize,
) -> Option<CellExpr>
    requires { IsPlaced types.now libfunc }
    ensures { IfSome result (λ cell. (amount : ℕ) → rows.results args.now amount (fam_of types.now libfunc) branch ≡ cell ∷ []) }
{
    match libfunc {
        Libfunc::StoreTemp(t) if moves::size(types, t) == 1 => Some(CellExpr::Cell(At {
            base: Reg::Ap,
            off: -1,
        })),
        Libfunc::UnwrapNonZero(_) => Some(first_of(args)),
        Libfunc::IsZero(_) if branch != 0 => Some(first_of(args)),
        _ => None,
    }
}

/// The cell of each of the two results of a libfunc that gives its argument of a single cell twice.
fn double_result(types: &Types, libfunc: Libfunc, args: &[CellExpr]) -> Option<CellExpr>
    requires { IsPlaced types.now libfunc }
    ensures { IfSome result (λ cell. (amount branch : ℕ) → rows.results args.now amount (fam_of types.now libfunc) branch ≡ cell ∷ cell ∷ []) }
{
    match libfunc {
        Libfunc::Dup(t) if moves::size(types, t) == 1 => Some(first_of(args)),
        _ => None,
    }
}

/// The first expression.
fn first_of(args: &[CellExpr]) -> CellExpr
    ensures { result ≡ argument args.now 0 }
{
    args.first().copied().unwrap_or(CellExpr::Imm(0))
}

impl Passing<'_> {
    /// Adds the results of a branch, of these types, to these variables.
    fn add_results(
        &self,
        branch: usize,
        variables: &[u64],
        kinds: &[TypeId],
        held: &mut Held<Cells>,
    ) -> Result<(), AllocError>
        requires signature { IsSignature self.now.types.now self.now.sig.now }
        requires placed { IsPlaced self.now.types.now self.now.sig.now.libfunc }
        requires close { All IsCloseExpr self.now.args.now }
        requires few { self.now.amount < most_moved }
        requires branch { branch < length self.now.sig.now.branches }
        requires below { All (IsBelow self.now.types.now) kinds.now }
        ensures { OnOk result (held.new ≡ moving.added self.now.types.now variables.now kinds.now (rows.results self.now.args.now self.now.amount (fam_of self.now.types.now self.now.sig.now.libfunc) branch) held.old) }
    {
        if let [] = variables {
            return Ok(());
        }
        if let Some(cell) = short_result(self.types, self.sig.libfunc, self.args, branch) {
            return moves::add_cell(self.alloc, self.types, variables, kinds, cell, held);
        }
        if let Some(cell) = double_result(self.types, self.sig.libfunc, self.args) {
            let own = [cell, cell];
            return moves::add_all(self.alloc, self.types, variables, kinds, &own, held);
        }
        let own = results(
            self.alloc,
            self.types,
            self.sig,
            self.args,
            self.amount,
            branch,
        )?;
        moves::add_all(self.alloc, self.types, variables, kinds, &own, held)
    }

    /// How far ap is behind the statement from where it was at the function's begin, once it has moved.
    fn further(&self, moved: Option<u64>) -> Option<u64>
        requires ap { IfSome self.now.place.now.ap (λ a. a < 2 ^ 62) }
        requires moved { IfSome moved (λ n. n < 2 ^ 62) }
        ensures { result ≡ moving.further self.now.place.now.ap moved }
    {
        moves::further(self.place.ap(), moved)
    }

    /// What is known behind a branch that gives results of these types to these variables, where `rest` is held without the
    /// arguments.
    fn give(
        &self,
        branch: usize,
        variables: &[u64],
        kinds: &[TypeId],
        rest: Held<Cells>,
    ) -> Result<Place, AllocError>
        requires placed { IsPlaced self.now.types.now self.now.sig.now.libfunc }
        requires step { CanStep self.now.types.now self.now.sig.now self.now.place.now.ap self.now.args.now rest self.now.amount }
        requires branch { branch < length self.now.sig.now.branches }
        requires below { All (IsBelow self.now.types.now) kinds.now }
        ensures { IfOk result (λ place. place ≡ moving.behind self.now.types.now self.now.sig.now.libfunc self.now.place.now self.now.args.now rest self.now.locals self.now.amount branch variables.now kinds.now) }
    {
        let moved = moves::change(self.types, self.sig, self.amount, branch);
        let mut held = moves::lower_all(self.alloc, moved.unwrap_or(0), rest)?;
        self.add_results(branch, variables, kinds, &mut held)?;
        Ok(Place {
            cells: held,
            ap: self.further(moved),
            locals: self.locals,
        })
    }

    /// What is known behind a branch, with the branch's target.
    fn part(
        &self,
        statement: usize,
        k: usize,
        branch: &Branch,
        kinds: &[TypeId],
        rest: Held<Cells>,
    ) -> Result<(usize, Stored), AllocError>
        requires placed { IsPlaced self.now.types.now self.now.sig.now.libfunc }
        requires step { CanStep self.now.types.now self.now.sig.now self.now.place.now.ap self.now.args.now rest self.now.amount }
        requires branch { k < length self.now.sig.now.branches }
        requires below { All (IsBelow self.now.types.now) kinds.now }
        requires here { statement + 1 < 2 ^ 64 }
        ensures target { IfOk result (λ part. part.0 ≡ statements.target_of statement branch.now.target) }
        ensures place { IfOk result (λ part. part.1 ≡ moving.behind self.now.types.now self.now.sig.now.libfunc self.now.place.now self.now.args.now rest self.now.locals self.now.amount k branch.now.results kinds.now) }
    {
        let place = self.give(k, branch.results.items(), kinds, rest)?;
        let stored = Stored::new(self.alloc, place)?;
        Ok((target_of(statement, branch.target) as usize, stored))
    }

    /// What is known behind each branch, with the branch's target. `rest` is held without the arguments.
    pub fn give_all(
        &self,
        statement: usize,
        branches: &[Branch],
        rest: Held<Cells>,
    ) -> Result<Vec<(usize, Stored)>, AllocError>
        requires placed { IsPlaced self.now.types.now self.now.sig.now.libfunc }
        requires step { CanStep self.now.types.now self.now.sig.now self.now.place.now.ap self.now.args.now rest self.now.amount }
        requires counted { length branches.now ≡ length self.now.sig.now.branches }
        requires here { statement + 1 < 2 ^ 64 }
        ensures { IfOk result (λ given. flow.branch_parts self.now.types.now statement self.now.sig.now.libfunc self.now.place.now self.now.args.now rest self.now.locals self.now.amount 0 branches.now self.now.sig.now.branches ≡ flow.all_pass given.items) }
    {
        let mut given = Vec::with_capacity(self.alloc, branches.len())?;
        if branches.is_empty() {
            return Ok(given);
        }
        let kinds = self.sig.branches.items();
        let last = branches.len() - 1;
        for k in 0..last {
            let copied = moves::copy(&rest)?;
            let part = self.part(statement, k, &branches[k], kinds[k].items(), copied)?;
            keep(&mut given, part)?;
        }
        let part = self.part(statement, last, &branches[last], kinds[last].items(), rest)?;
        keep(&mut given, part)?;
        Ok(given)
    }
}
