//! The rules of places, as the walk asks for them.

ghost use Rattle.std.specs.Prelude.{◌≡◌, ◌<◌, ◌≤◌, ◌+◌, ◌^◌, ℕ, List, [], ◌∷◌, map, length, Some, Ok, IfOk, Result};
ghost use Rattle.std.specs.List.{slice_get, All};
ghost use Rattle.std.specs.Option.{option_copied};
ghost use Rattle.libfunc_registry.specs.Wanted.{IsBelow};
ghost use Rattle.sierra_types.specs.declared.program.Statement.TheVariants.{Invoke};
ghost use Rattle.statement_walk.specs.Branches.{AreFirst};
ghost use Rattle.linear_check.specs.Statements as statements;
ghost use Rattle.ap_refs.specs.Arguments as arguments_of;
ghost use Rattle.ap_refs.specs.Bounds.{AreWithin, most_statements, IsBounded};
ghost use Rattle.ap_refs.specs.Flow as flow;
ghost use Rattle.ap_refs.specs.Locals as locals_of;
ghost use Rattle.ap_refs.specs.Moves as moving;
ghost use Rattle.ap_refs.specs.Prepared.{IsReady, IsValid, CanBegin};

use crate::cells::Cells;
use crate::fault::RefFault;
use crate::marks::marks_of;
use crate::passing::Passing;
use crate::place::Locals;
use crate::stored::Stored;
use crate::{arguments, locals, moves, same};
use casm_word::CellExpr;
use held_list::Held;
use libfunc_registry::{Libfunc, Sig};
use sierra_types::{Branch, Function, Name, Program, Statement};
use statement_walk::{Branches, WalkRules};
use std::alloc::{AllocError, Global};
use std::slice;
use type_table::{Positions, TypeId, Types};

/// A typed program with its types and signatures, prepared for the walk.
#[derive(Drop)]
pub struct Placing<'a> {
    /// What the environments take.
    pub alloc: Global,
    /// The program.
    pub program: &'a Program,
    /// Its types and functions.
    pub types: &'a Types,
    /// The signatures of its declared libfuncs, in order.
    pub sigs: &'a [Sig],
    /// Where libfuncs are declared.
    pub libfuncs: Positions,
}

/// The fault of arguments that aren't the last cells below ap, of which there are so many.
fn stack_fault(statement: u64, count: u64, args: &[(u64, Cells)]) -> Option<RefFault>
    requires few { count < 2 ^ 63 }
    requires count { count ≡ length (arguments_of.joined args.now) }
    ensures { result ≡ flow.stack_fault statement args.now }
{
    let variable = arguments::first_off_top(count, args)?;
    Some(RefFault::NotOnStack {
        statement,
        variable,
    })
}

/// The fault of an argument that is too far.
fn far_fault(statement: u64, args: &[(u64, Cells)]) -> Option<RefFault>
    ensures { result ≡ flow.far_fault statement args.now }
{
    let variable = arguments::first_far(args)?;
    Some(RefFault::OffsetTooFar {
        statement,
        variable,
    })
}

/// The fault of an argument that hasn't the form that its mark asks.
fn mark_fault(statement: u64, libfunc: Libfunc, args: &[(u64, Cells)]) -> Option<RefFault>
    ensures { (types : _) → result ≡ flow.mark_fault statement types libfunc args.now }
{
    let variable = arguments::first_unmarked(marks_of(libfunc), args)?;
    Some(RefFault::NotPlain {
        statement,
        variable,
    })
}

fn is_call(libfunc: Libfunc) -> bool
    ensures { result ≡ flow.is_call libfunc }
{
    matches!(libfunc, Libfunc::FunctionCall(_))
}

/// The fault of an argument that hasn't the form or isn't in the place that its libfunc asks.
fn form_fault(
    statement: u64,
    libfunc: Libfunc,
    count: u64,
    args: &[(u64, Cells)],
) -> Option<RefFault>
    requires few { count < 2 ^ 63 }
    requires count { count ≡ length (arguments_of.joined args.now) }
    ensures { (types : _) → result ≡ flow.form_fault statement types libfunc args.now }
{
    if is_call(libfunc) {
        stack_fault(statement, count, args)
    } else {
        mark_fault(statement, libfunc, args)
    }
}

/// Whether nobody knows where ap is behind a libfunc, and the cells before it can't be named by ap any more.
fn loses_ap(libfunc: Libfunc) -> bool
    ensures { result ≡ flow.loses_ap libfunc }
{
    matches!(libfunc, Libfunc::FunctionCall(_) | Libfunc::DictSquash(_))
}

/// The fault of what is left behind a libfunc that makes the change of ap unknown.
fn dangling_fault(statement: u64, libfunc: Libfunc, rest: &[(u64, Cells)]) -> Option<RefFault>
    ensures { result ≡ flow.dangling_fault statement libfunc rest.now }
{
    if loses_ap(libfunc) {
        left_fault(statement, rest)
    } else {
        None
    }
}

/// The fault of what is left with a cell from ap.
fn left_fault(statement: u64, rest: &[(u64, Cells)]) -> Option<RefFault>
    ensures { result ≡ flow.left_fault statement rest.now }
{
    let variable = arguments::first_from_ap(rest)?;
    Some(RefFault::Dangling {
        statement,
        variable,
    })
}

/// The first fault of a libfunc's statement before its branches. Its arguments have so many cells, and this is what it makes of
/// the local state.
fn invoke_fault(
    statement: u64,
    libfunc: Libfunc,
    count: u64,
    args: &[(u64, Cells)],
    rest: &Held<Cells>,
    step: Option<(Locals, u64)>,
) -> Option<RefFault>
    requires few { count < 2 ^ 63 }
    requires count { count ≡ length (arguments_of.joined args.now) }
    ensures { (types : _) → result ≡ flow.invoke_fault statement types libfunc args.now rest.now step }
{
    if let Some(fault) = far_fault(statement, args) {
        return Some(fault);
    }
    if let Some(fault) = form_fault(statement, libfunc, count, args) {
        return Some(fault);
    }
    if let Some(fault) = locals::local_fault(statement, step) {
        return Some(fault);
    }
    dangling_fault(statement, libfunc, rest.items())
}

/// The first fault of the end of a function whose results have so many cells.
fn return_fault(
    statement: u64,
    count: u64,
    args: &[(u64, Cells)],
    place: &Stored,
) -> Option<RefFault>
    requires few { count < 2 ^ 63 }
    requires count { count ≡ length (arguments_of.joined args.now) }
    ensures { result ≡ flow.end_faults statement place.now.locals args.now }
{
    far_fault(statement, args)
        .or(stack_fault(statement, count, args))
        .or(locals::end_fault(statement, place.locals()))
}

impl Placing<'_> {
    /// The signature of the libfunc that is declared with this id.
    fn sig_of(&self, id: &Name) -> Option<&Sig>
        requires { IsReady self.now.program.now self.now.types.now self.now.sigs.now self.now.libfuncs }
        ensures { option_copied result ≡ statements.declared self.now.program.now self.now.sigs.now id.now }
    {
        self.sigs.get(self.libfuncs.find(id.bytes())?)
    }

    /// The types of a function's parameters, and none where there is no such function.
    fn params_of(&self, function: usize) -> &[TypeId]
        ensures { result.now ≡ statements.param_types self.now.types.now function }
    {
        if function < self.types.function_count() {
            self.types.params(function)
        } else {
            &[]
        }
    }

    /// No branch, with the fault of the statement before its branches if it has one.
    fn stop(&self, fault: Option<RefFault>) -> Branches<Stored, RefFault>
        ensures given { result.given.items ≡ [] }
        ensures fault { result.fault ≡ fault }
    {
        Branches {
            given: Vec::new(self.alloc),
            fault,
        }
    }

    /// The statement of this number.
    fn statement(&self, statement: usize) -> &Statement
        requires { statement < length self.now.program.now.statements }
        ensures { slice_get self.now.program.now.statements statement ≡ Some result.now }
    {
        &self.program.statements.items()[statement]
    }

    /// The function at this position.
    fn function(&self, function: usize) -> &Function
        requires { function < length self.now.program.now.functions }
        ensures { slice_get self.now.program.now.functions function ≡ Some result.now }
    {
        &self.program.functions.items()[function]
    }

    /// What a libfunc's statement gives its branches, or its fault.
    fn invoke(
        &self,
        statement: usize,
        libfunc: &Name,
        args: &[u64],
        branches: &[Branch],
        place: &Stored,
    ) -> Result<Branches<Stored, RefFault>, AllocError>
        requires ready { IsReady self.now.program.now self.now.types.now self.now.sigs.now self.now.libfuncs }
        requires here { slice_get self.now.program.now.statements statement ≡ Some (Invoke libfunc.now args.now branches.now) }
        requires valid { (n : ℕ) × (n < length self.now.program.now.statements) × IsValid n statement place.now }
        ensures { IfOk result (λ parts. AreFirst parts.given.items parts.fault (flow.invoke_parts self.now.types.now statement args.now branches.now place.now (statements.declared self.now.program.now self.now.sigs.now libfunc.now))) }
    {
        let Some(sig) = self.sig_of(libfunc) else {
            return Ok(self.stop(None));
        };
        self.pass_args(statement, sig, branches, place, args)
    }

    /// The same, by the libfunc's signature. No argument and a single one need no list.
    fn pass_args(
        &self,
        statement: usize,
        sig: &Sig,
        branches: &[Branch],
        place: &Stored,
        args: &[u64],
    ) -> Result<Branches<Stored, RefFault>, AllocError>
        requires begin { CanBegin self.now.types.now sig.now branches.now place.now (arguments_of.taken args.now place.now.cells).1 }
        requires here { statement + 1 < 2 ^ 64 }
        ensures { IfOk result (λ parts. AreFirst parts.given.items parts.fault (flow.taken_parts self.now.types.now statement sig.now place.now branches.now (arguments_of.taken args.now place.now.cells))) }
    {
        match args {
            [] => self.pass_none(statement, sig, branches, place),
            [variable] => self.pass_one(statement, sig, branches, place, *variable),
            _ => self.pass_list(statement, sig, branches, place, args),
        }
    }

    /// The same, without arguments.
    fn pass_none(
        &self,
        statement: usize,
        sig: &Sig,
        branches: &[Branch],
        place: &Stored,
    ) -> Result<Branches<Stored, RefFault>, AllocError>
        requires begin { CanBegin self.now.types.now sig.now branches.now place.now place.now.cells }
        requires here { statement + 1 < 2 ^ 64 }
        ensures { IfOk result (λ parts. AreFirst parts.given.items parts.fault (flow.taken_parts self.now.types.now statement sig.now place.now branches.now ([], place.now.cells))) }
    {
        let rest = place.held(self.alloc)?;
        self.pass_cells(statement, sig, branches, place, &[], &[], rest)
    }

    /// The same, where this variable is the one argument.
    fn pass_one(
        &self,
        statement: usize,
        sig: &Sig,
        branches: &[Branch],
        place: &Stored,
        variable: u64,
    ) -> Result<Branches<Stored, RefFault>, AllocError>
        requires begin { CanBegin self.now.types.now sig.now branches.now place.now (arguments_of.taken (variable ∷ []) place.now.cells).1 }
        requires here { statement + 1 < 2 ^ 64 }
        ensures { IfOk result (λ parts. AreFirst parts.given.items parts.fault (flow.taken_parts self.now.types.now statement sig.now place.now branches.now (arguments_of.taken (variable ∷ []) place.now.cells))) }
    {
        let mut rest = place.held(self.alloc)?;
        let own = arguments::take_one(self.alloc, variable, &mut rest);
        let arg = (variable, own);
        self.pass_cells(
            statement,
            sig,
            branches,
            place,
            slice::from_ref(&arg),
            arg.1.items(),
            rest,
        )
    }

    /// The same, where these variables are the arguments.
    fn pass_list(
        &self,
        statement: usize,
        sig: &Sig,
        branches: &[Branch],
        place: &Stored,
        variables: &[u64],
    ) -> Result<Branches<Stored, RefFault>, AllocError>
        requires begin { CanBegin self.now.types.now sig.now branches.now place.now (arguments_of.taken variables.now place.now.cells).1 }
        requires here { statement + 1 < 2 ^ 64 }
        ensures { IfOk result (λ parts. AreFirst parts.given.items parts.fault (flow.taken_parts self.now.types.now statement sig.now place.now branches.now (arguments_of.taken variables.now place.now.cells))) }
    {
        let mut rest = place.held(self.alloc)?;
        let args = arguments::take_all(self.alloc, variables, &mut rest)?;
        self.pass(statement, sig, branches, place, &args, rest)
    }

    /// What a libfunc's statement gives its branches, or its fault, where its arguments are taken and this rest is held.
    fn pass(
        &self,
        statement: usize,
        sig: &Sig,
        branches: &[Branch],
        place: &Stored,
        args: &[(u64, Cells)],
        rest: Held<Cells>,
    ) -> Result<Branches<Stored, RefFault>, AllocError>
        requires begin { CanBegin self.now.types.now sig.now branches.now place.now rest }
        requires here { statement + 1 < 2 ^ 64 }
        ensures { IfOk result (λ parts. AreFirst parts.given.items parts.fault (flow.taken_parts self.now.types.now statement sig.now place.now branches.now (args.now, rest))) }
    {
        let cells = arguments::join(self.alloc, args)?;
        self.pass_cells(statement, sig, branches, place, args, &cells, rest)
    }

    /// The same, where the arguments have these cells.
    fn pass_cells(
        &self,
        statement: usize,
        sig: &Sig,
        branches: &[Branch],
        place: &Stored,
        args: &[(u64, Cells)],
        cells: &[CellExpr],
        rest: Held<Cells>,
    ) -> Result<Branches<Stored, RefFault>, AllocError>
        requires begin { CanBegin self.now.types.now sig.now branches.now place.now rest }
        requires here { statement + 1 < 2 ^ 64 }
        requires cells { cells.now ≡ arguments_of.joined args.now }
        ensures { IfOk result (λ parts. AreFirst parts.given.items parts.fault (flow.taken_parts self.now.types.now statement sig.now place.now branches.now (args.now, rest))) }
    {
        let step = locals::step_at(self.types, sig.libfunc, place);
        let fault = invoke_fault(
            statement as u64,
            sig.libfunc,
            cells.len() as u64,
            args,
            &rest,
            step,
        );
        let Some((locals, amount)) = step else {
            return Ok(self.stop(fault));
        };
        if fault.is_some() {
            return Ok(self.stop(fault));
        }
        let passing = Passing {
            alloc: self.alloc,
            types: self.types,
            sig,
            place,
            args: cells,
            locals,
            amount,
        };
        Ok(Branches {
            given: passing.give_all(statement, branches, rest)?,
            fault: None,
        })
    }

    /// The end of a function gives nothing to any branch, or its fault.
    fn end(
        &self,
        statement: u64,
        args: &[u64],
        place: &Stored,
    ) -> Result<Branches<Stored, RefFault>, AllocError>
        ensures { IfOk result (λ parts. AreFirst parts.given.items parts.fault (flow.parts_unless (flow.return_fault statement place.now (arguments_of.taken args.now place.now.cells).0) [])) }
    {
        let mut rest = place.held(self.alloc)?;
        let args = arguments::take_all(self.alloc, args, &mut rest)?;
        let cells = arguments::join(self.alloc, &args)?;
        Ok(self.stop(return_fault(statement, cells.len() as u64, &args, place)))
    }
}

impl WalkRules for Placing<'_> {
    ghost use Rattle.ap_refs.specs.Flow.{rules as rules_of};
    ghost use Rattle.ap_refs.specs.Prepared.{IsReady, IsValid};

    type Env = Stored;

    type Fault = RefFault;

    ghost rules = { λ l. rules_of l.program.now l.types.now l.sigs.now };

    ghost fits = { λ l. IsReady l.program.now l.types.now l.sigs.now l.libfuncs };

    ghost valid = { λ l n s place. IsValid n s place };

    fn statements(&self) -> usize {
        self.program.statements.items().len()
    }

    fn functions(&self) -> usize {
        self.program.functions.items().len()
    }

    fn entry(&self, function: usize) -> Result<(usize, Stored), AllocError> {
        let _types = self.types.len();
        let declared = self.function(function);
        let place = moves::beginning(
            self.alloc,
            self.types,
            declared.params.items(),
            self.params_of(function),
        )?;
        let stored = Stored::new(self.alloc, place)?;
        Ok((declared.entry as usize, stored))
    }

    fn flow(
        &self,
        _function: usize,
        statement: usize,
        env: &Stored,
    ) -> Result<Branches<Stored, RefFault>, AllocError> {
        match self.statement(statement) {
            Statement::Invoke {
                libfunc,
                args,
                branches,
            } => self.invoke(statement, libfunc, args.items(), branches.items(), env),
            Statement::Return { args } => self.end(statement as u64, args.items(), env),
        }
    }

    fn clash(&self, statement: usize, given: &Stored, had: &Stored) -> Option<RefFault> {
        same::clash(statement as u64, given, had)
    }

    fn stray(&self, _statement: usize) -> RefFault {
        RefFault::Memory
    }

    fn shared_entry(&self, _statement: usize) -> RefFault {
        RefFault::Memory
    }

    fn shared(&self, _statement: usize) -> RefFault {
        RefFault::Memory
    }

    fn unreached(&self, _statement: usize) -> RefFault {
        RefFault::Memory
    }

    ghost lawful = { λ l ready. ready.lawful };

    ghost keeps = { λ l ready. ready.keeps };
}
