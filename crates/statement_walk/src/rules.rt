//! The rules that a walk goes by, as a trait: what is known at entries, and what statements make of it.

ghost use Rattle.std.specs.Prelude.{◌≡◌, ℕ, ◌<◌, length, Some, IfOk};
ghost use Rattle.std.specs.List.{slice_get};
ghost use Rattle.statement_walk.specs.Rules.{Rules, Lawful};
ghost use Rattle.statement_walk.specs.Keeps.{Keeps};
ghost use Rattle.statement_walk.specs.Branches.{AreFirst};

use std::alloc::AllocError;

/// Why a walk gives no list.
#[derive(Debug, Drop)]
pub enum WalkFault<F> {
    /// The first rule that doesn't hold.
    Rule(F),
    /// Memory ran out.
    Memory,
}

impl<F> From<AllocError> for WalkFault<F> {
    ghost use Rattle.std.specs.Prelude.{◌≡◌};
    ghost use Rattle.statement_walk.specs.declared.rules.WalkFault.TheVariants.{Memory};

    ghost from_gives = { λ _ fault. fault ≡ Memory };

    fn from(_: AllocError) -> WalkFault<F> {
        WalkFault::Memory
    }
}

/// Where the branches of a statement lead and what is known there, in order up to the first fault.
#[derive(Debug, Drop)]
pub struct Branches<E, F> {
    /// The target of each branch and the environment that it gives.
    pub given: Vec<(usize, E)>,
    /// The fault of the next branch, or of the statement before its branches.
    pub fault: Option<F>,
}

/// What is known where statements begin, and what they make of it.
pub trait WalkRules {
    /// What is known where a statement begins.
    type Env: Drop;
    /// A rule that doesn't hold.
    type Fault: Drop;

    // What the walk goes by.
    ghost rules: { Self → Rules Self.Env Self.Fault };

    // What a caller of the walk has to know.
    ghost fits: { Self → Type 0 };

    // What environments are where a statement begins, with so many statements done.
    ghost valid: { Self → ℕ → ℕ → Self.Env → Type 0 };

    /// The number of statements.
    fn statements(&self) -> usize
        ensures { result ≡ (rules self.now).size };

    /// The number of functions.
    fn functions(&self) -> usize
        ensures { result ≡ length (rules self.now).entries };

    /// The statement where a function begins, and what is known there.
    fn entry(&self, function: usize) -> Result<(usize, Self::Env), AllocError>
        requires { function < length (rules self.now).entries }
        ensures { IfOk result (λ entry. slice_get (rules self.now).entries function ≡ Some entry) };

    /// What a statement of a function gives its branches.
    fn flow(
        &self,
        function: usize,
        statement: usize,
        env: &Self::Env,
    ) -> Result<Branches<Self::Env, Self::Fault>, AllocError>
        requires fits { fits self.now }
        requires inside { statement < (rules self.now).size }
        requires valid { (n : ℕ) × (n < (rules self.now).size) × valid self.now n statement env.now }
        ensures { IfOk result (λ branches. AreFirst branches.given.items branches.fault ((rules self.now).flow function statement env.now)) };

    /// Why what a statement gives doesn't agree with what its target has.
    fn clash(&self, statement: usize, given: &Self::Env, had: &Self::Env) -> Option<Self::Fault>
        ensures { result ≡ (rules self.now).clash statement given.now had.now };

    /// A function begins past the last statement.
    fn stray(&self, statement: usize) -> Self::Fault
        ensures { result ≡ (rules self.now).stray statement };

    /// A function begins at a statement of an earlier one.
    fn shared_entry(&self, statement: usize) -> Self::Fault
        ensures { result ≡ (rules self.now).shared_entry statement };

    /// A statement leads to one of an earlier function.
    fn shared(&self, statement: usize) -> Self::Fault
        ensures { result ≡ (rules self.now).shared statement };

    /// No function reaches a statement.
    fn unreached(&self, statement: usize) -> Self::Fault
        ensures { result ≡ (rules self.now).unreached statement };

    ghost lawful: { (x : Self) → fits x → Lawful (rules x) };

    ghost keeps: { (x : Self) → fits x → Keeps (rules x) (valid x) };
}
