//! The declarations of a program as they are read.

ghost use Rattle.std.specs.Prelude.{◌≡◌, OnOk};
ghost use Rattle.sierra_text.specs.ProgramReading.{at_start, added};
ghost use Rattle.sierra_text.specs.Parts.{progress_of};

use crate::declaration::Declaration;
use crate::part::Part;
use sierra_types::{Function, LibfuncDecl, List, Program, Statement, TypeDecl};
use std::alloc::{AllocError, Global};

/// What has been read of a program.
#[derive(Debug, Drop)]
pub struct Parts {
    /// The part that the last declaration belongs to.
    pub part: Part,
    /// The types so far.
    pub types: Vec<TypeDecl>,
    /// The libfuncs so far.
    pub libfuncs: Vec<LibfuncDecl>,
    /// The statements so far.
    pub statements: Vec<Statement>,
    /// The functions so far.
    pub functions: Vec<Function>,
}

impl Parts {
    /// Nothing yet.
    pub fn new(alloc: Global) -> Parts
        ensures { progress_of result ≡ at_start }
    {
        Parts {
            part: Part::Types,
            types: Vec::new(alloc),
            libfuncs: Vec::new(alloc),
            statements: Vec::new(alloc),
            functions: Vec::new(alloc),
        }
    }

    /// Adds a declaration behind those of its part.
    pub fn push(&mut self, declaration: Declaration) -> Result<(), AllocError>
        ensures { OnOk result (progress_of self.new ≡ added (progress_of self.old) declaration) }
    {
        match declaration {
            Declaration::OfType(decl) => {
                self.part = Part::Types;
                self.types.push(decl)?;
            }
            Declaration::OfLibfunc(decl) => {
                self.part = Part::Libfuncs;
                self.libfuncs.push(decl)?;
            }
            Declaration::OfStatement(statement) => {
                self.part = Part::Statements;
                self.statements.push(statement)?;
            }
            Declaration::OfFunction(function) => {
                self.part = Part::Functions;
                self.functions.push(function)?;
            }
        }
        Ok(())
    }

    /// The program.
    pub fn into_program(self) -> Program
        ensures { result ≡ (progress_of self).program }
    {
        Program {
            types: List::new(self.types),
            libfuncs: List::new(self.libfuncs),
            statements: List::new(self.statements),
            functions: List::new(self.functions),
        }
    }
}
