//! The turns of the evaluator. Each does one statement.

ghost use Rattle.std.specs.Prelude.{◌≡◌, ◌<◌, ◌+◌, ◌^◌, [], ℕ, List, map, Some, Ok, IfOk, OnOk, MatchOption, length};
ghost use Rattle.std.specs.List.{slice_get, zip};
ghost use Rattle.sierra_types.specs.declared.program.Statement.TheVariants as statement;
ghost use Rattle.held_list.specs.Held.{Held as HeldOf};
ghost use Rattle.held_list.specs.Editing.{add_all};
ghost use Rattle.linear_check.specs.Statements as statements;
ghost use Rattle.value_trees.specs.Meant.{meant};
ghost use Rattle.value_trees.specs.Val.{Plain};
ghost use Rattle.value_trees.specs.declared.value.Value.{Value as ValueOf};
ghost use Rattle.libfunc_registry.specs.Fam.{fam_of, takes};
ghost use Rattle.libfunc_meaning.specs.Applying.{IsSignature, AreShort};
ghost use Rattle.libfunc_meaning.specs.Dictionaries.{mapped};
ghost use Rattle.libfunc_meaning.specs.Do.{Do};
ghost use Rattle.libfunc_meaning.specs.Placed.{ArePlain};
ghost use Rattle.libfunc_meaning.specs.Proper.{IsNoCall};
ghost use Rattle.sierra_meaning.specs.Acts.{Calls, amount_at};
ghost use Rattle.sierra_meaning.specs.Evaluating.{mapped_held};
ghost use Rattle.sierra_meaning.specs.Idle.{AreIdle};
ghost use Rattle.sierra_meaning.specs.Turns.{IsReady, CanGo, Stands, Turns, Ends, place_of, Went, Called};

use crate::variables::{add_values, begin, take_values};
use gas_solver::Accepted;
use held_list::Held;
use libfunc_meaning::apply;
use libfunc_registry::{Libfunc, Sig};
use sierra_types::{Branch, Statement, Target};
use std::alloc::{AllocError, Global};
use std::mem;
use value_trees::Value;

/// A function that waits for the results of the one that it called.
#[derive(Drop)]
pub(crate) struct Caller<'a> {
    /// What it holds.
    pub rest: Held<Value>,
    /// The variables that the results become.
    pub names: &'a [u64],
    /// The statement where it goes on.
    pub next: usize,
}

/// Where the evaluation stands.
#[derive(Drop)]
pub(crate) struct Run<'a> {
    /// The statement that comes next.
    pub at: usize,
    /// What its function holds.
    pub env: Held<Value>,
    /// The functions that wait, the last one at the end.
    pub callers: Vec<Caller<'a>>,
    /// Room for arguments and results. Between statements it is empty.
    pub values: Vec<Value>,
}

/// An accepted program with the positions of its statements' signatures.
#[derive(Drop)]
pub(crate) struct Evaluator<'a> {
    /// What values and callers take.
    pub alloc: Global,
    /// The program.
    pub accepted: &'a Accepted,
    /// Of each statement that invokes a libfunc the position of its signature.
    pub positions: Vec<usize>,
    /// Where each statement leads that leaves all values as they are.
    pub idle: Vec<Option<Target>>,
}

impl<'a> Evaluator<'a> {
    /// Main's results from where it stands, with no function that waits.
    pub fn results(&self, at: usize, env: Held<Value>) -> Result<Vec<Value>, AllocError>
        requires ready { IsReady self.now.accepted.now self.now.positions.items }
        requires idle { AreIdle self.now.accepted.now self.now.idle.items }
        requires stands { Stands self.now.accepted.now (record { at = at; env = env; callers = [] }) }
        ensures { IfOk result (λ results. Ends self.now.accepted.now (record { at = at; env = env; callers = [] }) (map meant results.items)) }
    {
        let mut run = Run {
            at,
            env,
            callers: Vec::new(self.alloc),
            values: Vec::new(self.alloc),
        };
        'turns: loop {
            if let Some(results) = self.turn(&mut run)? {
                return Ok(results);
            }
        }
    }

    /// Does one statement, and answers main's results where main ends.
    fn turn(&self, run: &mut Run<'a>) -> Result<Option<Vec<Value>>, AllocError>
        requires ready { IsReady self.now.accepted.now self.now.positions.items }
        requires idle { AreIdle self.now.accepted.now self.now.idle.items }
        requires stands { Stands self.now.accepted.now (place_of run.old) }
        requires empty { run.old.values.items ≡ [] }
        ensures turns { IfOk result (λ ended. MatchOption ended (Turns self.now.accepted.now (place_of run.old) (place_of run.new)) (λ results. Ends self.now.accepted.now (place_of run.old) (map meant results.items))) }
        ensures emptied { OnOk result (run.new.values.items ≡ []) }
    {
        if let Some(target) = self.idle[run.at] {
            self.pass(run, target);
            return Ok(None);
        }
        match &self.accepted.program().statements.items()[run.at] {
            Statement::Invoke { args, branches, .. } => {
                self.invoke(run, args.items(), branches.items())?;
                Ok(None)
            }
            Statement::Return { args } => self.end(run, args.items()),
        }
    }

    /// Goes on where a statement leads that leaves all values as they are.
    fn pass(&self, run: &mut Run<'a>, target: Target)
        requires ready { IsReady self.now.accepted.now self.now.positions.items }
        requires idle { AreIdle self.now.accepted.now self.now.idle.items }
        requires stands { Stands self.now.accepted.now (place_of run.old) }
        requires few { run.old.at + 1 < 2 ^ 64 }
        requires here { slice_get self.now.idle.items run.old.at ≡ Some (Some target) }
        ensures turns { Turns self.now.accepted.now (place_of run.old) (place_of run.new) }
        ensures kept { run.new.values.items ≡ run.old.values.items }
    {
        let _rising = run.env.items();
        run.at = target_of(run.at, target);
    }

    /// Ends a function: its caller goes on with the results, or they are main's.
    fn end(&self, run: &mut Run<'a>, args: &[u64]) -> Result<Option<Vec<Value>>, AllocError>
        requires ready { IsReady self.now.accepted.now self.now.positions.items }
        requires stands { Stands self.now.accepted.now (place_of run.old) }
        requires empty { run.old.values.items ≡ [] }
        requires here { slice_get self.now.accepted.now.program.statements run.old.at ≡ Some (statement.Return args.now) }
        ensures turns { IfOk result (λ ended. MatchOption ended (Turns self.now.accepted.now (place_of run.old) (place_of run.new)) (λ results. Ends self.now.accepted.now (place_of run.old) (map meant results.items))) }
        ensures emptied { OnOk result (run.new.values.items ≡ []) }
    {
        take_values(args, &mut run.env, &mut run.values)?;
        match run.callers.pop() {
            Some(caller) => {
                resume(run, caller)?;
                Ok(None)
            }
            None => Ok(Some(mem::replace(&mut run.values, Vec::new(self.alloc)))),
        }
    }

    /// Does the libfunc of a statement, or calls its function.
    fn invoke(
        &self,
        run: &mut Run<'a>,
        args: &[u64],
        branches: &'a [Branch],
    ) -> Result<(), AllocError>
        requires ready { IsReady self.now.accepted.now self.now.positions.items }
        requires stands { Stands self.now.accepted.now (place_of run.old) }
        requires empty { run.old.values.items ≡ [] }
        requires few { run.old.at + 1 < 2 ^ 64 }
        requires here { (id : List ℕ) × (slice_get self.now.accepted.now.program.statements run.old.at ≡ Some (statement.Invoke id args.now branches.now)) }
        ensures turns { OnOk result (Turns self.now.accepted.now (place_of run.old) (place_of run.new)) }
        ensures emptied { OnOk result (run.new.values.items ≡ []) }
    {
        take_values(args, &mut run.env, &mut run.values)?;
        let sig = &self.accepted.sigs()[self.positions[run.at]];
        match sig.libfunc {
            Libfunc::FunctionCall(callee) => self.call(run, callee, branches),
            _ => self.go(run, sig, branches),
        }
    }

    /// Does a libfunc that is no call with the values, and goes on at the target of the branch that it takes.
    fn go(&self, run: &mut Run<'a>, sig: &Sig, branches: &[Branch]) -> Result<(), AllocError>
        requires can { CanGo self.now.accepted.now run.old.at sig.now branches.now (map meant run.old.values.items) (mapped_held meant run.old.env) }
        requires few { run.old.at + 1 < 2 ^ 64 }
        requires inside { run.old.at < length self.now.accepted.now.plan.need }
        ensures went { OnOk result (Went self.now.accepted.now sig.now branches.now run.old run.new) }
        ensures callers { OnOk result (run.new.callers.items ≡ run.old.callers.items) }
        ensures emptied { OnOk result (run.new.values.items ≡ []) }
    {
        let values = mem::replace(&mut run.values, Vec::new(self.alloc));
        let (taken, results) = self.done(run.at, sig, values)?;
        run.values = results;
        let branch = &branches[taken];
        add_values(branch.results.items(), &mut run.values, &mut run.env)?;
        run.at = target_of(run.at, branch.target);
        Ok(())
    }

    /// What the libfunc of a statement does with values: the branch that it takes, and its results.
    fn done(
        &self,
        statement: usize,
        sig: &Sig,
        values: Vec<Value>,
    ) -> Result<(usize, Vec<Value>), AllocError>
        requires signature { IsSignature self.now.accepted.now.types sig.now }
        requires no_call { IsNoCall (fam_of self.now.accepted.now.types sig.now.libfunc) }
        requires typed { ArePlain (takes (fam_of self.now.accepted.now.types sig.now.libfunc)) (map meant values.items) }
        requires short { AreShort (map meant values.items) }
        requires inside { statement < length self.now.accepted.now.plan.need }
        ensures { IfOk result (λ r. Do mapped (fam_of self.now.accepted.now.types sig.now.libfunc) (map meant values.items) (amount_at self.now.accepted.now statement) r.0 (map meant r.1.items)) }
    {
        let amount = self.accepted.plan().amount(statement).unwrap_or(0);
        apply(self.alloc, self.accepted.types(), sig, values, amount)
    }

    /// Begins a function with the values, and lets the one that calls it wait.
    fn call(
        &self,
        run: &mut Run<'a>,
        callee: usize,
        branches: &'a [Branch],
    ) -> Result<(), AllocError>
        requires can { (args : HeldOf Plain) × (names : List ℕ) × (next : ℕ) × Calls self.now.accepted.now callee run.old.at (map meant run.old.values.items) branches.now args names next }
        requires few { run.old.at + 1 < 2 ^ 64 }
        ensures called { OnOk result (Called self.now.accepted.now callee branches.now run.old run.new) }
        ensures emptied { OnOk result (run.new.values.items ≡ []) }
    {
        let function = &self.accepted.program().functions.items()[callee];
        let branch = &branches[0];
        let args = begin(self.alloc, function.params.items(), &mut run.values)?;
        let rest = mem::replace(&mut run.env, args);
        let next = target_of(run.at, branch.target);
        run.callers.push(Caller {
            rest,
            names: branch.results.items(),
            next,
        })?;
        run.at = function.entry as usize;
        Ok(())
    }
}

/// Lets a caller go on with the values.
fn resume<'a>(run: &mut Run<'a>, caller: Caller<'a>) -> Result<(), AllocError>
    requires { (more : HeldOf ValueOf) × (add_all (zip caller.names.now run.old.values.items) caller.rest ≡ Ok more) }
    ensures added { OnOk result (add_all (zip caller.entry.names.now run.old.values.items) caller.entry.rest ≡ Ok run.new.env) }
    ensures at { OnOk result (run.new.at ≡ caller.entry.next) }
    ensures callers { OnOk result (run.new.callers.items ≡ run.old.callers.items) }
    ensures emptied { OnOk result (run.new.values.items ≡ []) }
{
    run.env = caller.rest;
    run.at = caller.next;
    add_values(caller.names, &mut run.values, &mut run.env)
}

/// Where a branch of a statement leads.
fn target_of(statement: usize, target: Target) -> usize
    requires { statement + 1 < 2 ^ 64 }
    ensures { result ≡ statements.target_of statement target }
{
    match target {
        Target::Fallthrough => statement + 1,
        Target::To(number) => number as usize,
    }
}
