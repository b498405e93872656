//! The tree of a Sierra program, as its text has it: nothing is looked up and nothing is checked.

use crate::list::List;
use crate::name::Name;

/// A program: its four parts, each in the order of the text.
#[derive(Debug, Drop)]
pub struct Program {
    /// The declarations of types.
    pub types: List<TypeDecl>,
    /// The declarations of libfuncs.
    pub libfuncs: List<LibfuncDecl>,
    /// The statements, of which a target or an entry names one by its position from 0.
    pub statements: List<Statement>,
    /// The functions.
    pub functions: List<Function>,
}

/// The declaration of a type: `type id = generic<args> info;`.
#[derive(Debug, Drop)]
pub struct TypeDecl {
    /// The id that the program uses.
    pub id: Name,
    /// The generic type, a word.
    pub generic: Name,
    /// The generic arguments.
    pub args: List<Arg>,
    /// What the declaration says of the type's abilities, if it says something.
    pub info: Option<Info>,
}

/// The declaration of a libfunc: `libfunc id = generic<args>;`.
#[derive(Debug, Drop)]
pub struct LibfuncDecl {
    /// The id that the program uses.
    pub id: Name,
    /// The generic libfunc, a word.
    pub generic: Name,
    /// The generic arguments.
    pub args: List<Arg>,
}

/// A generic argument.
#[derive(Debug, Drop)]
pub enum Arg {
    /// A type, by its id.
    OfType(Name),
    /// The name of a user's type, behind `ut@`.
    User(Name),
    /// A function of the program, behind `user@`.
    Callee(Name),
    /// A number. Of 0 no negative is written.
    Number {
        /// Whether `-` stands before it.
        negative: bool,
        /// Its absolute value.
        size: u128,
    },
}

/// What a declaration says of a type's abilities.
#[derive(Clone, Copy, Debug, PartialEq, Eq, Drop)]
pub struct Info {
    /// Whether values may be stored in cells.
    pub storable: bool,
    /// Whether values may be dropped.
    pub drop: bool,
    /// Whether values may be duplicated.
    pub dup: bool,
    /// Whether values take no cell.
    pub zero_sized: bool,
}

/// A statement. Variables go by their numbers.
#[derive(Debug, Drop)]
pub enum Statement {
    /// A call of a libfunc: `id(args) { branches };`, or `id(args) -> (results);`.
    Invoke {
        /// The libfunc, by its id.
        libfunc: Name,
        /// The variables that it takes.
        args: List<u64>,
        /// The branches; a text has at least one.
        branches: List<Branch>,
    },
    /// The end of a function: `return(args);`.
    Return {
        /// The variables that it answers.
        args: List<u64>,
    },
}

/// A branch of a statement.
#[derive(Debug, Drop)]
pub struct Branch {
    /// Where the program goes on.
    pub target: Target,
    /// The variables that the branch gives.
    pub results: List<u64>,
}

/// Where a branch goes on.
#[derive(Clone, Copy, Debug, PartialEq, Eq, Drop)]
pub enum Target {
    /// At the next statement.
    Fallthrough,
    /// At the statement with this number, from 0.
    To(u64),
}

/// A function: `id@entry(params) -> (results);`.
#[derive(Debug, Drop)]
pub struct Function {
    /// The id that calls use.
    pub id: Name,
    /// The statement that it begins with, from 0.
    pub entry: u64,
    /// The variable and the type of each parameter.
    pub params: List<(u64, Name)>,
    /// The types of the results.
    pub results: List<Name>,
}
