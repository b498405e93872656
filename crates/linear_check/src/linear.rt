//! The rules of the linear check, as the walk asks for them.

ghost use Rattle.std.specs.Prelude.{◌≡◌, ◌≢◌, ◌<◌, ◌+◌, ◌^◌, ℕ, length, Some, None, Err, IfOk, IfErr, IsTrue, nat_lt, [], ◌∷◌, false};
ghost use Rattle.std.specs.List.{slice_get, list_all};
ghost use Rattle.std.specs.Option.{option_copied};
ghost use Rattle.held_list.specs.Held.{Held as HeldTypes};
ghost use Rattle.statement_walk.specs.Branches.{AreFirst};
ghost use Rattle.linear_check.specs.Flow as flow;
ghost use Rattle.linear_check.specs.Statements as statements;
ghost use Rattle.linear_check.specs.Prepared.{IsPrepared, AnswersNothing, AnswersPart, Begins};

use crate::fault::LinearFault;
use crate::steps;
use held_list::Held;
use libfunc_registry::{Libfunc, Sig};
use sierra_types::{Branch, Function, List, Name, Program, Statement};
use statement_walk::{Branches, WalkRules};
use std::alloc::{AllocError, Global};
use type_table::{Positions, TypeId, Types};

/// A program with its types and signatures, prepared for the walk.
#[derive(Drop)]
pub struct Linear<'a> {
    /// What the environments take.
    pub alloc: Global,
    /// The program.
    pub program: &'a Program,
    /// Its types and functions.
    pub types: &'a Types,
    /// The signatures of its declared libfuncs, in order.
    pub sigs: &'a [Sig],
    /// Where libfuncs are declared.
    pub libfuncs: Positions,
    /// The number of predecessors of each statement, with 2 for 2 and more.
    pub predecessors: Vec<u8>,
}

impl Linear<'_> {
    /// The signature of the libfunc that is declared with this id.
    fn sig_of(&self, id: &Name) -> Option<&Sig>
        requires { IsPrepared self.now.program.now self.now.libfuncs self.now.predecessors.items }
        ensures { option_copied result ≡ statements.declared self.now.program.now self.now.sigs.now id.now }
    {
        self.sigs.get(self.libfuncs.find(id.bytes())?)
    }

    /// Whether a statement is a `branch_align`.
    fn is_align(&self, statement: usize) -> bool
        requires { IsPrepared self.now.program.now self.now.libfuncs self.now.predecessors.items }
        ensures { result ≡ statements.is_align self.now.program.now self.now.sigs.now (slice_get self.now.program.now.statements statement) }
    {
        match self.program.statements.items().get(statement) {
            Some(Statement::Invoke { libfunc, .. }) => match self.sig_of(libfunc) {
                Some(sig) => matches!(sig.libfunc, Libfunc::BranchAlign),
                None => false,
            },
            _ => false,
        }
    }

    /// Of a statement with two or more branches the target is a `branch_align` with no other predecessor.
    fn check_align(&self, statement: u64, several: bool, target: usize) -> Result<(), LinearFault>
        requires prepared { IsPrepared self.now.program.now self.now.libfuncs self.now.predecessors.items }
        requires inside { target < length self.now.program.now.statements }
        ensures { result ≡ flow.aligned self.now.program.now self.now.sigs.now statement several target }
    {
        if !several || (self.is_align(target) && self.predecessors[target] == 1) {
            Ok(())
        } else {
            Err(LinearFault::AlignMissing { statement })
        }
    }

    /// The types of a function's results, and none where there is no such function.
    fn result_types(&self, function: usize) -> &[TypeId]
        ensures { result.now ≡ statements.result_types self.now.types.now function }
    {
        if function < self.types.function_count() {
            self.types.results(function)
        } else {
            &[]
        }
    }

    /// The function at this position.
    fn function(&self, function: usize) -> &Function
        requires { function < length self.now.program.now.functions }
        ensures { slice_get self.now.program.now.functions function ≡ Some result.now }
    {
        &self.program.functions.items()[function]
    }

    /// The types of a function's parameters, and none where there is no such function.
    fn param_types(&self, function: usize) -> &[TypeId]
        ensures { result.now ≡ statements.param_types self.now.types.now function }
    {
        if function < self.types.function_count() {
            self.types.params(function)
        } else {
            &[]
        }
    }

    /// The end of a function takes its results, and leaves nothing.
    fn check_return(
        &self,
        function: usize,
        statement: u64,
        args: &[u64],
        held: &mut Held<TypeId>,
    ) -> Result<(), LinearFault>
        ensures { AnswersNothing (flow.return_parts statement args.now (statements.result_types self.now.types.now function) held.old) result }
    {
        let results = self.result_types(function);
        if args.len() != results.len() {
            return Err(LinearFault::Shape { statement });
        }
        steps::take_all(self.alloc, statement, args, results, held)?;
        steps::nothing_left(statement, held)
    }

    /// What one branch gives its target. Other branches need what is left too.
    fn give(
        &self,
        statement: usize,
        several: bool,
        rest: &Held<TypeId>,
        branch: &Branch,
        types: &[TypeId],
    ) -> Result<(usize, Held<TypeId>), LinearFault>
        requires prepared { IsPrepared self.now.program.now self.now.libfuncs self.now.predecessors.items }
        requires here { statement < length self.now.program.now.statements }
        requires inside { statements.target_of statement branch.now.target < length self.now.program.now.statements }
        ensures { AnswersPart (flow.branch_part self.now.program.now self.now.sigs.now statement several rest.now branch.now types.now) result }
    {
        let rest = rest.copy()?;
        self.give_left(statement, several, rest, branch, types)
    }

    /// The same, where no other branch needs what is left.
    fn give_left(
        &self,
        statement: usize,
        several: bool,
        rest: Held<TypeId>,
        branch: &Branch,
        types: &[TypeId],
    ) -> Result<(usize, Held<TypeId>), LinearFault>
        requires prepared { IsPrepared self.now.program.now self.now.libfuncs self.now.predecessors.items }
        requires here { statement < length self.now.program.now.statements }
        requires inside { statements.target_of statement branch.now.target < length self.now.program.now.statements }
        ensures { AnswersPart (flow.branch_part self.now.program.now self.now.sigs.now statement several rest branch.now types.now) result }
    {
        let mut held = rest;
        steps::add_all(
            self.alloc,
            statement as u64,
            branch.results.items(),
            types,
            &mut held,
        )?;
        let target = steps::target_of(statement, branch.target) as usize;
        self.check_align(statement as u64, several, target)?;
        Ok((target, held))
    }

    /// Of a libfunc's statement the shape is tested and the arguments are taken.
    fn begin(
        &self,
        statement: usize,
        libfunc: &Name,
        args: &[u64],
        branches: &[Branch],
        held: &mut Held<TypeId>,
    ) -> Result<&Sig, LinearFault>
        requires prepared { IsPrepared self.now.program.now self.now.libfuncs self.now.predecessors.items }
        requires here { statement < length self.now.program.now.statements }
        ensures passes { IfOk result (λ sig. Begins self.now.program.now self.now.sigs.now statement libfunc.now args.now branches.now held.old sig.now held.new) }
        ensures fails { IfErr result (λ fault. fault ≢ LinearFault.Memory → flow.invoke_parts self.now.program.now self.now.sigs.now statement libfunc.now args.now branches.now held.old ≡ Err fault) }
    {
        let fault = LinearFault::Shape {
            statement: statement as u64,
        };
        let Some(sig) = self.sig_of(libfunc) else {
            return Err(fault);
        };
        if !steps::shaped(
            self.program.statements.items().len(),
            statement,
            sig,
            args,
            branches,
        ) {
            return Err(fault);
        }
        match steps::take_all(self.alloc, statement as u64, args, sig.params.items(), held) {
            Ok(()) => Ok(sig),
            Err(fault) => Err(fault),
        }
    }

    /// What the branches of a statement give, up to the first fault.
    fn give_all(
        &self,
        statement: usize,
        rest: &Held<TypeId>,
        branches: &[Branch],
        types: &[List<TypeId>],
    ) -> Result<Branches<Held<TypeId>, LinearFault>, AllocError>
        requires prepared { IsPrepared self.now.program.now self.now.libfuncs self.now.predecessors.items }
        requires here { statement < length self.now.program.now.statements }
        requires counted { IsTrue (flow.counts_agree branches.now types.now) }
        requires inside { IsTrue (list_all (λ b. nat_lt (statements.target_of statement b.target) (length self.now.program.now.statements)) branches.now) }
        ensures { IfOk result (λ parts. AreFirst parts.given.items parts.fault (flow.branch_parts self.now.program.now self.now.sigs.now statement (flow.several branches.now) rest.now branches.now types.now)) }
    {
        let several = branches.len() >= 2;
        let mut given = Vec::with_capacity(self.alloc, branches.len())?;
        for (k, branch) in branches.iter().enumerate() {
            match self.give(statement, several, rest, branch, types[k].items()) {
                Ok(part) => steps::keep(&mut given, part)?,
                Err(fault) => {
                    if fault.is_memory() {
                        return Err(AllocError);
                    }
                    return Ok(Branches {
                        given,
                        fault: Some(fault),
                    });
                }
            }
        }
        Ok(Branches { given, fault: None })
    }

    /// What the one branch of a statement gives, or its fault.
    fn give_one(
        &self,
        statement: usize,
        rest: Held<TypeId>,
        branch: &Branch,
        types: &[TypeId],
    ) -> Result<Branches<Held<TypeId>, LinearFault>, AllocError>
        requires prepared { IsPrepared self.now.program.now self.now.libfuncs self.now.predecessors.items }
        requires here { statement < length self.now.program.now.statements }
        requires inside { statements.target_of statement branch.now.target < length self.now.program.now.statements }
        ensures { IfOk result (λ parts. AreFirst parts.given.items parts.fault (flow.branch_part self.now.program.now self.now.sigs.now statement false rest branch.now types.now ∷ [])) }
    {
        match self.give_left(statement, false, rest, branch, types) {
            Ok(part) => self.only(part),
            Err(fault) => self.stop_by(fault),
        }
    }

    /// What all branches of a statement give, up to the first fault. A single one takes what is left as it is.
    fn give_each(
        &self,
        statement: usize,
        rest: Held<TypeId>,
        branches: &[Branch],
        types: &[List<TypeId>],
    ) -> Result<Branches<Held<TypeId>, LinearFault>, AllocError>
        requires prepared { IsPrepared self.now.program.now self.now.libfuncs self.now.predecessors.items }
        requires here { statement < length self.now.program.now.statements }
        requires counted { IsTrue (flow.counts_agree branches.now types.now) }
        requires inside { IsTrue (list_all (λ b. nat_lt (statements.target_of statement b.target) (length self.now.program.now.statements)) branches.now) }
        ensures { IfOk result (λ parts. AreFirst parts.given.items parts.fault (flow.branch_parts self.now.program.now self.now.sigs.now statement (flow.several branches.now) rest branches.now types.now)) }
    {
        if let ([branch], [only]) = (branches, types) {
            return self.give_one(statement, rest, branch, only.items());
        }
        self.give_all(statement, &rest, branches, types)
    }

    /// What a libfunc's statement gives its branches, up to the first fault.
    fn invoke(
        &self,
        statement: usize,
        libfunc: &Name,
        args: &[u64],
        branches: &[Branch],
        held: Held<TypeId>,
    ) -> Result<Branches<Held<TypeId>, LinearFault>, AllocError>
        requires prepared { IsPrepared self.now.program.now self.now.libfuncs self.now.predecessors.items }
        requires here { statement < length self.now.program.now.statements }
        ensures { IfOk result (λ parts. AreFirst parts.given.items parts.fault (flow.spread (flow.invoke_parts self.now.program.now self.now.sigs.now statement libfunc.now args.now branches.now held))) }
    {
        let mut held = held;
        match self.begin(statement, libfunc, args, branches, &mut held) {
            Ok(sig) => self.give_each(statement, held, branches, sig.branches.items()),
            Err(fault) => self.stop_by(fault),
        }
    }

    /// What one branch gives, and no fault.
    fn only(
        &self,
        part: (usize, Held<TypeId>),
    ) -> Result<Branches<Held<TypeId>, LinearFault>, AllocError>
        ensures given { IfOk result (λ parts. parts.given.items ≡ part ∷ []) }
        ensures fault { IfOk result (λ parts. parts.fault ≡ None) }
    {
        let mut given = Vec::with_capacity(self.alloc, 1)?;
        steps::keep(&mut given, part)?;
        Ok(Branches { given, fault: None })
    }

    /// What the end of a function gives: no branch, or its fault.
    fn end(
        &self,
        function: usize,
        statement: u64,
        args: &[u64],
        held: Held<TypeId>,
    ) -> Result<Branches<Held<TypeId>, LinearFault>, AllocError>
        ensures { IfOk result (λ parts. AreFirst parts.given.items parts.fault (flow.spread (flow.return_parts statement args.now (statements.result_types self.now.types.now function) held))) }
    {
        let mut held = held;
        match self.check_return(function, statement, args, &mut held) {
            Ok(()) => Ok(self.stop(None)),
            Err(fault) => self.stop_by(fault),
        }
    }

    /// No branch, with the fault of the statement, unless memory ran out.
    fn stop_by(&self, fault: LinearFault) -> Result<Branches<Held<TypeId>, LinearFault>, AllocError>
        ensures given { IfOk result (λ parts. parts.given.items ≡ []) }
        ensures fault { IfOk result (λ parts. parts.fault ≡ Some fault) }
        ensures other { IfOk result (λ _. fault ≢ LinearFault.Memory) }
    {
        if fault.is_memory() {
            return Err(AllocError);
        }
        Ok(self.stop(Some(fault)))
    }

    /// No branch, with the fault of the statement before its branches if it has one.
    fn stop(&self, fault: Option<LinearFault>) -> Branches<Held<TypeId>, LinearFault>
        ensures given { result.given.items ≡ [] }
        ensures fault { result.fault ≡ fault }
    {
        Branches {
            given: Vec::new(self.alloc),
            fault,
        }
    }
}

impl WalkRules for Linear<'_> {
    ghost use Rattle.linear_check.specs.Flow.{rules as rules_of};
    ghost use Rattle.linear_check.specs.Prepared.{IsReady};

    type Env = Held<TypeId>;

    type Fault = LinearFault;

    ghost rules = { λ l. rules_of l.program.now l.types.now l.sigs.now };

    ghost fits = { λ l. IsReady l.program.now l.types.now l.sigs.now l.libfuncs l.predecessors.items };

    // A list of held variables rises by its type, so nothing more is asked of it.
    ghost valid = { λ l n s held. Unit {0} };

    fn statements(&self) -> usize {
        self.program.statements.items().len()
    }

    fn functions(&self) -> usize {
        self.program.functions.items().len()
    }

    fn entry(&self, function: usize) -> Result<(usize, Held<TypeId>), AllocError> {
        let declared = self.function(function);
        let params = steps::parameters(
            self.alloc,
            declared.params.items(),
            self.param_types(function),
        )?;
        Ok((declared.entry as usize, params))
    }

    fn flow(
        &self,
        function: usize,
        statement: usize,
        env: &Held<TypeId>,
    ) -> Result<Branches<Held<TypeId>, LinearFault>, AllocError> {
        let held = env.copy()?;
        match &self.program.statements.items()[statement] {
            Statement::Invoke {
                libfunc,
                args,
                branches,
            } => self.invoke(statement, libfunc, args.items(), branches.items(), held),
            Statement::Return { args } => self.end(function, statement as u64, args.items(), held),
        }
    }

    fn clash(
        &self,
        statement: usize,
        given: &Held<TypeId>,
        had: &Held<TypeId>,
    ) -> Option<LinearFault> {
        let variable = given.differ(had)?;
        Some(LinearFault::MergeDiffers {
            statement: statement as u64,
            variable,
        })
    }

    fn stray(&self, statement: usize) -> LinearFault {
        LinearFault::Shape {
            statement: statement as u64,
        }
    }

    fn shared_entry(&self, statement: usize) -> LinearFault {
        LinearFault::SharedStatement {
            statement: statement as u64,
        }
    }

    fn shared(&self, statement: usize) -> LinearFault {
        LinearFault::SharedStatement {
            statement: statement as u64,
        }
    }

    fn unreached(&self, statement: usize) -> LinearFault {
        LinearFault::Unreachable {
            statement: statement as u64,
        }
    }

    ghost lawful = { λ l ready. ready.lawful };

    ghost keeps = { λ l ready. record { begins = λ i s e is. tt; flows = λ k n f s t e given lt valid is. tt; stays = λ n s e valid. tt } };
}
