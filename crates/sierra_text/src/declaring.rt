//! Declarations, each from behind its reserved word or its id.

ghost use Rattle.std.specs.Prelude.{◌≡◌, IfOk, codes};
ghost use Rattle.text_reading.specs.Given.{Gives};
ghost use Rattle.text_reading.specs.TokenReading.{mark_at};
ghost use Rattle.sierra_text.specs.Text.{standard};
ghost use Rattle.sierra_text.specs.Reading.{type_at, libfunc_at, invoke_at, return_at, function_at};
ghost use Rattle.sierra_text.specs.ProgramReading.{head_of, has_statements, head_at, function_declared_at, statement_declared_at, behind_head_at, declaration_at};

use crate::args::args;
use crate::branches::branches;
use crate::declaration::{Declaration, Head};
use crate::ids::{id, numbered, position, word_token};
use crate::infos::info_or_nothing;
use crate::labels::label;
use crate::lists::{in_parentheses, vars};
use crate::part::Part;
use sierra_types::{Function, LibfuncDecl, Name, Statement, TypeDecl};
use std::alloc::{AllocError, Global};
use text_reading::{Stop, blanks, is_next, mark};

/// The `;` that ends a declaration.
fn declaration_end(rest: &mut &[u8]) -> Result<(), Stop<()>>
    ensures { Gives (λ unit. tt) result rest.new.now (mark_at {K = Unit {0}} (codes ";") rest.old.now) }
{
    mark(rest, b";")
}

/// A type, from behind `type`.
#[tactic(auto, unfolding(crate::specs::Reading::type_at))]
fn type_decl(alloc: Global, rest: &mut &[u8]) -> Result<TypeDecl, Stop<()>>
    ensures { Gives (λ decl. decl) result rest.new.now (type_at standard rest.old.now) }
{
    let id = id(alloc, rest)?;
    mark(rest, b"=")?;
    let generic = word_token(alloc, rest)?;
    let args = args(alloc, rest)?;
    let info = info_or_nothing(rest)?;
    declaration_end(rest)?;
    Ok(TypeDecl {
        id,
        generic,
        args,
        info,
    })
}

/// A libfunc, from behind `libfunc`.
#[tactic(auto, unfolding(crate::specs::Reading::libfunc_at))]
fn libfunc_decl(alloc: Global, rest: &mut &[u8]) -> Result<LibfuncDecl, Stop<()>>
    ensures { Gives (λ decl. decl) result rest.new.now (libfunc_at standard rest.old.now) }
{
    let id = id(alloc, rest)?;
    mark(rest, b"=")?;
    let generic = word_token(alloc, rest)?;
    let args = args(alloc, rest)?;
    declaration_end(rest)?;
    Ok(LibfuncDecl { id, generic, args })
}

/// A statement that calls a libfunc, from behind the libfunc's id.
#[tactic(auto, unfolding(crate::specs::Reading::invoke_at))]
fn invoke(alloc: Global, rest: &mut &[u8], libfunc: Name) -> Result<Statement, Stop<()>>
    ensures { Gives (λ statement. statement) result rest.new.now (invoke_at standard libfunc rest.old.now) }
{
    let args = vars(alloc, rest)?;
    let branches = branches(alloc, rest)?;
    declaration_end(rest)?;
    Ok(Statement::Invoke {
        libfunc,
        args,
        branches,
    })
}

/// The end of a function, from behind `return`.
#[tactic(auto, unfolding(crate::specs::Reading::return_at))]
fn return_statement(alloc: Global, rest: &mut &[u8]) -> Result<Statement, Stop<()>>
    ensures { Gives (λ statement. statement) result rest.new.now (return_at standard rest.old.now) }
{
    let args = vars(alloc, rest)?;
    declaration_end(rest)?;
    Ok(Statement::Return { args })
}

/// A function, from behind its id.
#[tactic(auto, using(crate::proofs::StandardLists::param_moves, crate::proofs::StandardLists::id_moves), unfolding(crate::specs::Reading::function_at))]
fn function(alloc: Global, rest: &mut &[u8], id: Name) -> Result<Function, Stop<()>>
    ensures { Gives (λ function. function) result rest.new.now (function_at standard id rest.old.now) }
{
    mark(rest, b"@")?;
    let entry = position(rest)?;
    let params = in_parentheses(alloc, rest)?;
    mark(rest, b"->")?;
    let results = in_parentheses(alloc, rest)?;
    declaration_end(rest)?;
    Ok(Function {
        id,
        entry,
        params,
        results,
    })
}

/// A reserved word, or an id.
fn head_of(alloc: Global, label: &[u8]) -> Result<Head, AllocError>
    ensures { IfOk result (λ head. head ≡ head_of label.now) }
{
    let type_word: &[u8] = b"type";
    let libfunc_word: &[u8] = b"libfunc";
    let return_word: &[u8] = b"return";
    if label == type_word {
        Ok(Head::TypeWord)
    } else if label == libfunc_word {
        Ok(Head::LibfuncWord)
    } else if label == return_word {
        Ok(Head::ReturnWord)
    } else {
        Ok(Head::Id(Name::new(alloc, label)?))
    }
}

/// What a declaration begins with, where the last one belongs to this part.
#[tactic(auto, unfolding(crate::specs::ProgramReading::head_at))]
fn head(alloc: Global, rest: &mut &[u8], part: Part) -> Result<Head, Stop<()>>
    ensures { Gives (λ head. head) result rest.new.now (head_at standard part rest.old.now) }
{
    if is_next(rest, b'[') {
        let name = numbered(alloc, rest)?;
        return Ok(Head::Id(name));
    }
    let text: &[u8] = *rest;
    let end = label(rest, part)?;
    blanks(rest)?;
    Ok(head_of(alloc, &text[..end])?)
}

/// Whether a statement may follow.
fn has_statements(part: Part) -> bool
    ensures { result ≡ has_statements part }
{
    match part {
        Part::Types | Part::Libfuncs | Part::Statements => true,
        Part::Functions => false,
    }
}

/// A declaration, from behind its head.
#[tactic(auto, unfolding(crate::specs::ProgramReading::behind_head_at, crate::specs::ProgramReading::function_declared_at, crate::specs::ProgramReading::statement_declared_at))]
fn behind_head(
    alloc: Global,
    rest: &mut &[u8],
    part: Part,
    head: Head,
) -> Result<Declaration, Stop<()>>
    ensures { Gives (λ declaration. declaration) result rest.new.now (behind_head_at standard part head rest.old.now) }
{
    match head {
        Head::TypeWord => {
            let decl = type_decl(alloc, rest)?;
            Ok(Declaration::OfType(decl))
        }
        Head::LibfuncWord => {
            let decl = libfunc_decl(alloc, rest)?;
            Ok(Declaration::OfLibfunc(decl))
        }
        Head::ReturnWord => {
            let statement = return_statement(alloc, rest)?;
            Ok(Declaration::OfStatement(statement))
        }
        Head::Id(id) => {
            if has_statements(part) && is_next(rest, b'(') {
                let statement = invoke(alloc, rest, id)?;
                Ok(Declaration::OfStatement(statement))
            } else {
                let function = function(alloc, rest, id)?;
                Ok(Declaration::OfFunction(function))
            }
        }
    }
}

/// A declaration, where the last one belongs to this part.
#[tactic(auto, unfolding(crate::specs::ProgramReading::declaration_at))]
pub fn declaration(alloc: Global, rest: &mut &[u8], part: Part) -> Result<Declaration, Stop<()>>
    ensures { Gives (λ declaration. declaration) result rest.new.now (declaration_at standard part rest.old.now) }
{
    let head = head(alloc, rest, part)?;
    behind_head(alloc, rest, part, head)
}
