//! Inputs that are read, and answers that are printed.

ghost use Rattle.std.specs.Prelude.{◌<◌, length, IsTrue};
ghost use Rattle.std.specs.List.{All};

use sierra_types::{Arg, List, Name, Program, TypeDecl};
use std::alloc::{AllocError, Global};
use std::test::Fail;
use text_reading::Place;
use type_table::{TypeId, Types, table};
use typed_values::{InputFault, Outcome, Verdict, print_verdict, read_input};

/// The types, each as its id, its generic name and its arguments. A struct or an enum has its name first.
const TYPES: &[&str] = &[
    "felt felt64",
    "u8 u8",
    "Unit Struct Tuple",
    "Row Array u8",
    "Pair Struct Pair u8 felt",
    "W1 Struct W1 u8 u8 u8 u8 u8 u8 u8 u8",
    "W2 Struct W2 W1 W1 W1 W1 W1 W1 W1 W1",
    "W3 Struct W3 W2 W2 W2 W2 W2 W2 W2 W2",
    "W4 Struct W4 W3 W3 W3 W3 W3 W3 W3 W3",
    "Wide Enum Wide u8 W4",
    "Wides Array Wide",
    "Res Enum core::panics::PanicResult::<(u8)> u8 Row",
];

fn name(alloc: Global, word: Option<&str>) -> Result<Name, AllocError> {
    Name::new(alloc, word.unwrap_or("").as_bytes())
}

fn args(alloc: Global, line: &str) -> Result<List<Arg>, AllocError> {
    let mut args = Vec::new(alloc);
    let is_user = line.contains("Struct") || line.contains("Enum");
    for (place, word) in line.split_whitespace().skip(2).enumerate() {
        let name = Name::new(alloc, word.as_bytes())?;
        args.push(if place == 0 && is_user {
            Arg::User(name)
        } else {
            Arg::OfType(name)
        })?;
    }
    Ok(List::new(args))
}

fn types(alloc: Global) -> Result<Types, Fail> {
    let mut types = Vec::new(alloc);
    for line in TYPES {
        types.push(TypeDecl {
            id: name(alloc, line.split_whitespace().next())?,
            generic: name(alloc, line.split_whitespace().nth(1))?,
            args: args(alloc, line)?,
            info: None,
        })?;
    }
    let program = Program {
        types: List::new(types),
        libfuncs: List::new(Vec::new(alloc)),
        statements: List::new(Vec::new(alloc)),
        functions: List::new(Vec::new(alloc)),
    };
    Ok(table(alloc, &program)?)
}

/// Whether the types are of the table.
fn all_below(types: &Types, ids: &[TypeId]) -> bool
    ensures { IsTrue result → All (λ p. p.0 < length types.now.rows) ids.now }
{
    let len = types.len();
    ids.iter().all(|id| id.0 < len)
}

fn ids(alloc: Global, types: &Types, words: &str) -> Result<Vec<TypeId>, AllocError> {
    let mut ids = Vec::new(alloc);
    for word in words.split_whitespace() {
        if let Some(id) = types.number(&Name::new(alloc, word.as_bytes())?) {
            ids.push(id)?;
        }
    }
    Ok(ids)
}

fn told(alloc: Global, fault: InputFault) -> Result<String, AllocError> {
    match fault {
        InputFault::Syntax(Place { line, column }) => format!(in alloc; "I1 {line} {column}"),
        InputFault::OutOfRange(Place { line, column }) => format!(in alloc; "I2 {line} {column}"),
        InputFault::LineCount { expected, found } => format!(in alloc; "I3 {expected} {found}"),
        InputFault::LongArray(Place { line, column }) => format!(in alloc; "I4 {line} {column}"),
        InputFault::GasRange => String::from_str(alloc, "I5"),
        InputFault::Memory => Err(AllocError),
    }
}

/// The verdict of a run that gives what it is given, from gas 100 with counter 40; or the fault of the text.
fn shown(alloc: Global, words: &str, text: &str) -> Result<String, Fail> {
    let types = types(alloc)?;
    let ids = ids(alloc, &types, words)?;
    if !all_below(&types, &ids) {
        return Ok(String::new(alloc));
    }
    match read_input(alloc, text.as_bytes(), &types, &ids) {
        Ok(input) => {
            let outcome = Outcome::of(alloc, &types, &ids, input.args, 100, 40)?;
            let verdict = Verdict {
                outcome,
                steps: 3,
                checks: 1,
            };
            Ok(print_verdict(alloc, &verdict)?)
        }
        Err(fault) => Ok(told(alloc, fault)?),
    }
}

/// The types of the arguments, the text with `/` for the end of a line, and the first line of what is shown.
const ROWS: &[(&str, &str, &str)] = &[
    (
        "felt",
        "gas 300/18446744069414584320/",
        "value 18446744069414584320",
    ),
    ("", "gas 4294967295/", "value ()"),
    ("Unit", "gas 0/()/", "value ()"),
    (
        "Pair Row",
        "gas 1/(255, 7)/[1, 2]/",
        "value (255, 7), [1, 2]",
    ),
    ("Res", "gas 1/0:5/", "value 5"),
    ("Res", "gas 1/1:[]/", "panic []"),
    ("Res u8", "gas 1/1:[1]/2/", "value 1:[1], 2"),
    ("felt", "gas 4294967296x", "I1 1 15"),
    ("felt", "gas 340282366920938463463374607431768211456/", "I5"),
    ("felt", "gas 1/5/5", "I3 1 2"),
    ("felt", "gas 1/18446744069414584321x", "I2 2 1"),
    ("felt felt", "gas 1/5/05/", "I1 3 2"),
    ("Res", "gas 1/2:x/", "I2 2 1"),
    ("Pair", "gas 1/(1,2)/", "I1 2 4"),
    ("Row", "gas 1/[1, ]/", "I1 2 5"),
    ("Row", "gas 1/[256, x]/", "I2 2 2"),
];

#[test]
fn inputs_and_answers(rt: HostRuntime) -> Result<(), Fail> {
    let alloc = rt.alloc();
    for (words, text, expected) in ROWS {
        let text = text.replace(alloc, "/", "\n")?;
        let shown = shown(alloc, words, &text)?;
        assert_eq!(rt; shown.as_str().lines().next(), Some(*expected), "{text}");
    }
    Ok(())
}

#[test]
fn a_verdict(rt: HostRuntime) -> Result<(), Fail> {
    let shown = shown(rt.alloc(), "u8", "gas 1\n5\n")?;
    assert_eq!(rt; shown.as_str(), "value 5\ngas used 60\nsteps 3\nchecks 1\n");
    Ok(())
}

/// What is shown of an array of values of 4097 cells: one that is out of range, and as many others behind it.
fn many(alloc: Global, others: usize) -> Result<String, Fail> {
    let mut text = String::from_str(alloc, "gas 1\n[0:256")?;
    for _ in 0..others {
        text.push_str(", 0:1")?;
    }
    text.push_str("]\n")?;
    shown(alloc, "Wides", &text)
}

/// An array that is too long is told before a number in it.
#[test]
fn long_arrays(rt: HostRuntime) -> Result<(), Fail> {
    let alloc = rt.alloc();
    assert_eq!(rt; many(alloc, 254)?.as_str(), "I2 2 4");
    assert_eq!(rt; many(alloc, 255)?.as_str(), "I4 2 1");
    Ok(())
}
