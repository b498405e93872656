//! Programs that have a gas plan, with all that was found of them.

ghost use Rattle.std.specs.Prelude.{◌≡◌};
ghost use Rattle.gas_solver.specs.Accepting.{IsAccepted};

use crate::plan::GasPlan;
use libfunc_registry::Sig;
use linear_check::Envs;
use sierra_types::{List, Program};
use std::marker::Model;
use type_table::Types;

/// A program with its types, the signatures of its libfuncs, the variables of each statement, its gas plan and its main, all
/// of which are right by its type.
#[derive(Debug, Drop)]
pub struct Accepted {
    program: Program,
    types: Types,
    sigs: List<Sig>,
    envs: Envs,
    plan: GasPlan,
    main: usize,
}

impl Model for Accepted {
    ghost use Rattle.gas_solver.specs.Accepting.{AcceptedView, IsAccepted};

    ghost Value = { AcceptedView };

    ghost view = { λ a. record { program = a.program; types = a.types; sigs = a.sigs; envs = a.envs; plan = a.plan; main = a.main } };

    ghost invariant = { λ a. IsAccepted (record { program = a.program; types = a.types; sigs = a.sigs; envs = a.envs; plan = a.plan; main = a.main }) };
}

impl Accepted {
    /// A program with what was found of it.
    pub fn new(
        program: Program,
        types: Types,
        sigs: List<Sig>,
        envs: Envs,
        plan: GasPlan,
        main: usize,
    ) -> Accepted
        requires { IsAccepted (record { program = program; types = types; sigs = sigs; envs = envs; plan = plan; main = main }) }
        ensures { result ≡ record { program = program; types = types; sigs = sigs; envs = envs; plan = plan; main = main } }
    {
        Accepted {
            program,
            types,
            sigs,
            envs,
            plan,
            main,
        }
    }

    /// The program.
    pub fn program(&self) -> &Program
        ensures program { result.now ≡ self.now.program }
        ensures accepted { IsAccepted self.now }
    {
        &self.program
    }

    /// Its types and functions.
    pub fn types(&self) -> &Types
        ensures { result.now ≡ self.now.types }
    {
        &self.types
    }

    /// The signatures of its declared libfuncs, in order.
    pub fn sigs(&self) -> &[Sig]
        ensures { result.now ≡ self.now.sigs }
    {
        self.sigs.items()
    }

    /// What is held at each statement.
    pub fn envs(&self) -> &Envs
        ensures { result.now ≡ self.now.envs }
    {
        &self.envs
    }

    /// Its gas plan.
    pub fn plan(&self) -> &GasPlan
        ensures { result.now ≡ self.now.plan }
    {
        &self.plan
    }

    /// The function where a run begins, by its position.
    pub fn main(&self) -> usize
        ensures { result ≡ self.now.main }
    {
        self.main
    }
}
