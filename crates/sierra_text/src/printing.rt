//! Printing: a program in, its text in the plain layout out.

ghost use Rattle.std.specs.Prelude.{◌≡◌, ◌++◌, ℕ, List, OnOk, IfOk};
ghost use Rattle.std.specs.List.{All};
ghost use Rattle.std.specs.Str.{IsAscii};
ghost use Rattle.std.specs.String.{string_bytes};
ghost use Rattle.sierra_types.specs.declared.program.Target.{Target};
ghost use Rattle.sierra_text.specs.Text.{Text, standard};
ghost use Rattle.sierra_text.specs.AsciiNames.{IsAsciiArg, IsAsciiType, IsAsciiLibfunc, IsAsciiStatement, IsAsciiParam, IsAsciiFunction, HasAsciiNames};
ghost use Rattle.sierra_text.specs.Layout.{in_parentheses, arg_text, args_text, ability_text, abilities_text, info_text, declared_text, type_line, libfunc_line, var_text, target_text, branch_text, in_braces, one_branch, branches_text, statement_line, param_text, function_line, next_part, layout};

use crate::plain::{Plain, push_joined, push_name, push_number};
use sierra_types::{
    Arg, Branch, Function, Info, LibfuncDecl, List, Name, Program, Statement, Target, TypeDecl,
};
use std::alloc::{AllocError, Global};

/// Parts in `(` and `)`.
fn push_in_parentheses<T: Plain>(text: &mut String, parts: &List<T>) -> Result<(), AllocError>
    requires { All T.has_ascii_names parts.now }
    ensures { OnOk result (string_bytes text.new ≡ string_bytes text.old ++ in_parentheses T.plain parts.now) }
{
    text.push_str("(")?;
    push_joined(text, parts.items(), ", ")?;
    text.push_str(")")
}

/// An id.
impl Plain for Name {
    ghost plain = { λ name. name };

    ghost has_ascii_names = { IsAscii };

    fn push_to(&self, text: &mut String) -> Result<(), AllocError> {
        push_name(text, self.bytes())
    }
}

/// A generic argument.
impl Plain for Arg {
    ghost plain = { arg_text };

    ghost has_ascii_names = { IsAsciiArg };

    fn push_to(&self, text: &mut String) -> Result<(), AllocError> {
        match self {
            Arg::OfType(name) => name.push_to(text),
            Arg::User(name) => {
                text.push_str("ut@")?;
                name.push_to(text)
            }
            Arg::Callee(name) => {
                text.push_str("user@")?;
                name.push_to(text)
            }
            Arg::Number { negative, size } => {
                if *negative {
                    text.push_str("-")?;
                }
                push_number(text, *size)
            }
        }
    }
}

/// Generic arguments in `<` and `>`, or nothing.
fn push_args(text: &mut String, args: &List<Arg>) -> Result<(), AllocError>
    requires { All IsAsciiArg args.now }
    ensures { OnOk result (string_bytes text.new ≡ string_bytes text.old ++ args_text args.now) }
{
    if args.items().is_empty() {
        return Ok(());
    }
    text.push_str("<")?;
    push_joined(text, args.items(), ", ")?;
    text.push_str(">")
}

/// The name of an ability with what stands before it and behind it, and whether the type has it.
#[tactic(auto, unfolding(crate::specs::Layout::ability_text))]
fn push_ability(text: &mut String, name: &str, value: bool) -> Result<(), AllocError>
    ensures { OnOk result (string_bytes text.new ≡ string_bytes text.old ++ ability_text name.now value) }
{
    text.push_str(name)?;
    if value {
        text.push_str("true")
    } else {
        text.push_str("false")
    }
}

/// The four abilities in `[` and `]`, behind a space.
fn push_abilities(text: &mut String, info: Info) -> Result<(), AllocError>
    ensures { OnOk result (string_bytes text.new ≡ string_bytes text.old ++ abilities_text info) }
{
    push_ability(text, " [storable: ", info.storable)?;
    push_ability(text, ", drop: ", info.drop)?;
    push_ability(text, ", dup: ", info.dup)?;
    push_ability(text, ", zero_sized: ", info.zero_sized)?;
    text.push_str("]")
}

/// The abilities, or nothing.
fn push_info(text: &mut String, info: Option<Info>) -> Result<(), AllocError>
    ensures { OnOk result (string_bytes text.new ≡ string_bytes text.old ++ info_text info) }
{
    match info {
        Some(info) => push_abilities(text, info),
        None => Ok(()),
    }
}

/// What is declared: an id, `=`, a word and its generic arguments.
fn push_declared(
    text: &mut String,
    id: &Name,
    generic: &Name,
    args: &List<Arg>,
) -> Result<(), AllocError>
    requires { IsAscii id.now × IsAscii generic.now × All IsAsciiArg args.now }
    ensures { OnOk result (string_bytes text.new ≡ string_bytes text.old ++ declared_text id.now generic.now args.now) }
{
    id.push_to(text)?;
    text.push_str(" = ")?;
    generic.push_to(text)?;
    push_args(text, args)
}

/// The line of a type.
impl Plain for TypeDecl {
    ghost plain = { type_line };

    ghost has_ascii_names = { IsAsciiType };

    fn push_to(&self, text: &mut String) -> Result<(), AllocError> {
        text.push_str("type ")?;
        push_declared(text, &self.id, &self.generic, &self.args)?;
        push_info(text, self.info)?;
        text.push_str(";\n")
    }
}

/// The line of a libfunc.
impl Plain for LibfuncDecl {
    ghost plain = { libfunc_line };

    ghost has_ascii_names = { IsAsciiLibfunc };

    fn push_to(&self, text: &mut String) -> Result<(), AllocError> {
        text.push_str("libfunc ")?;
        push_declared(text, &self.id, &self.generic, &self.args)?;
        text.push_str(";\n")
    }
}

/// A variable.
impl Plain for u64 {
    ghost plain = { var_text };

    ghost has_ascii_names = { λ n. Unit {0} };

    fn push_to(&self, text: &mut String) -> Result<(), AllocError> {
        text.push_str("[")?;
        push_number(text, u128::from(*self))?;
        text.push_str("]")
    }
}

/// `fallthrough`, or the number of a statement.
fn push_target(text: &mut String, target: Target) -> Result<(), AllocError>
    ensures { OnOk result (string_bytes text.new ≡ string_bytes text.old ++ target_text target) }
{
    match target {
        Target::Fallthrough => text.push_str("fallthrough"),
        Target::To(statement) => push_number(text, u128::from(statement)),
    }
}

/// A branch in `{` and `}`.
impl Plain for Branch {
    ghost plain = { branch_text };

    ghost has_ascii_names = { λ branch. Unit {0} };

    fn push_to(&self, text: &mut String) -> Result<(), AllocError> {
        push_target(text, self.target)?;
        push_in_parentheses(text, &self.results)
    }
}

/// Branches in `{` and `}`.
fn push_in_braces(text: &mut String, branches: &[Branch]) -> Result<(), AllocError>
    ensures { OnOk result (string_bytes text.new ≡ string_bytes text.old ++ in_braces branches.now) }
{
    text.push_str(" { ")?;
    push_joined(text, branches, " ")?;
    text.push_str(" }")
}

/// `->` and the results of a branch that goes on at the next statement.
fn push_arrow(text: &mut String, results: &List<u64>) -> Result<(), AllocError>
    ensures { OnOk result (string_bytes text.new ≡ string_bytes text.old ++ one_branch Target.Fallthrough results.now) }
{
    text.push_str(" -> ")?;
    push_in_parentheses(text, results)
}

/// The branches of a statement.
fn push_branches(text: &mut String, branches: &[Branch]) -> Result<(), AllocError>
    ensures { OnOk result (string_bytes text.new ≡ string_bytes text.old ++ branches_text branches.now) }
{
    match branches {
        [
            Branch {
                target: Target::Fallthrough,
                results,
            },
        ] => push_arrow(text, results),
        _ => push_in_braces(text, branches),
    }
}

/// The line of a statement.
impl Plain for Statement {
    ghost plain = { statement_line };

    ghost has_ascii_names = { IsAsciiStatement };

    fn push_to(&self, text: &mut String) -> Result<(), AllocError> {
        match self {
            Statement::Invoke {
                libfunc,
                args,
                branches,
            } => {
                libfunc.push_to(text)?;
                push_in_parentheses(text, args)?;
                push_branches(text, branches.items())?;
            }
            Statement::Return { args } => {
                text.push_str("return")?;
                push_in_parentheses(text, args)?;
            }
        }
        text.push_str(";\n")
    }
}

/// A parameter: a variable and its type.
impl Plain for (u64, Name) {
    ghost plain = { param_text };

    ghost has_ascii_names = { IsAsciiParam };

    fn push_to(&self, text: &mut String) -> Result<(), AllocError> {
        self.0.push_to(text)?;
        text.push_str(": ")?;
        self.1.push_to(text)
    }
}

/// The line of a function.
impl Plain for Function {
    ghost plain = { function_line };

    ghost has_ascii_names = { IsAsciiFunction };

    fn push_to(&self, text: &mut String) -> Result<(), AllocError> {
        self.id.push_to(text)?;
        text.push_str("@")?;
        push_number(text, u128::from(self.entry))?;
        push_in_parentheses(text, &self.params)?;
        text.push_str(" -> ")?;
        push_in_parentheses(text, &self.results)?;
        text.push_str(";\n")
    }
}

/// A part of the program, behind an empty line where neither it nor what is before it is empty.
fn push_part<T: Plain>(text: &mut String, lines: &List<T>) -> Result<(), AllocError>
    requires { All T.has_ascii_names lines.now }
    ensures { OnOk result (string_bytes text.new ≡ next_part T.plain (string_bytes text.old) lines.now) }
{
    if !text.is_empty() && !lines.items().is_empty() {
        text.push_str("\n")?;
    }
    push_joined(text, lines.items(), "")
}

/// The text of a program in the plain layout.
///
/// Reading it gives the program again, where the program has a text at all and is no longer than a text may be. The
/// time is linear in the length of the text, and the error is out of memory.
pub fn print(alloc: Global, program: &Program) -> Result<String, AllocError>
    // So are the names of each program that a text has.
    requires { HasAsciiNames program.now }
    ensures printed { IfOk result (λ text. string_bytes text ≡ layout program.now) }
    // It is a text of the program, if the program has one at all.
    ensures is_text { IfOk result (λ text. (source : List ℕ) → Text standard program.now source → Text standard program.now (string_bytes text)) }
{
    let mut text = String::new(alloc);
    push_part(&mut text, &program.types)?;
    push_part(&mut text, &program.libfuncs)?;
    push_part(&mut text, &program.statements)?;
    push_part(&mut text, &program.functions)?;
    Ok(text)
}
