//! The commands: arguments come in from the top call, and the command that they are goes out, with the names of its files.

ghost use Rattle.std.specs.Prelude.{◌≡◌, ◌<◌, ◌^◌, ℕ, [], ◌∷◌, map, option_copied, string_bytes, MatchOption, IsTrue, ◌↔◌};
ghost use Rattle.std.specs.Option.{option_map, unwrap_or};
ghost use Rattle.byte_reading.specs.Decimal.{decimal_text};
ghost use Rattle.sierra_tool.specs.declared.command.Assemble.{Assemble as AssembleName};
ghost use Rattle.sierra_tool.specs.declared.command.Check.{Check as CheckNames};
ghost use Rattle.sierra_tool.specs.declared.command.Command.TheVariants as commands;
ghost use Rattle.sierra_tool.specs.declared.command.Evaluate.{Evaluate as EvaluateNames};
ghost use Rattle.sierra_tool.specs.declared.command.Execute.{Execute as ExecuteNames};
ghost use Rattle.sierra_tool.specs.declared.command.Gas.{Gas as GasName};
ghost use Rattle.sierra_tool.specs.declared.command.Show.{Show as ShowName};
ghost use Rattle.sierra_tool.specs.Command.{IsCommand, IsPlanned, Parses, name_of, limit};

use byte_reading::read_decimal;

/// What a command reads.
#[derive(Clone, Copy, Debug, PartialEq, Eq)]
pub enum Source {
    /// The Sierra text.
    Program,
    /// The gas and the arguments of `main`.
    Input,
    /// The run file that somebody made.
    Run,
    /// The CASM text.
    Casm,
}

impl Source {
    /// How many bytes it may have.
    pub fn limit(self) -> u64
        ensures { result ≡ limit self }
    {
        match self {
            Source::Program | Source::Input | Source::Run | Source::Casm => 1 << 24,
        }
    }
}

/// The command `check PROGRAM INPUT RUN`, by the names of its files.
#[derive(Clone, Copy, Debug, PartialEq, Eq)]
pub struct Check<'a> {
    /// The name of the program.
    pub program: &'a str,
    /// The name of the input.
    pub input: &'a str,
    /// The name of the run file.
    pub run: &'a str,
}

/// The command `run PROGRAM INPUT`, by the names of its files.
#[derive(Clone, Copy, Debug, PartialEq, Eq)]
pub struct Execute<'a> {
    /// The name of the program.
    pub program: &'a str,
    /// The name of the input.
    pub input: &'a str,
}

/// The command `eval PROGRAM INPUT`, by the names of its files.
#[derive(Clone, Copy, Debug, PartialEq, Eq)]
pub struct Evaluate<'a> {
    /// The name of the program.
    pub program: &'a str,
    /// The name of the input.
    pub input: &'a str,
}

/// The command `gas PROGRAM`, by the name of its file.
#[derive(Clone, Copy, Debug, PartialEq, Eq)]
pub struct Gas<'a> {
    /// The name of the program.
    pub program: &'a str,
}

/// The command `show PROGRAM`, by the name of its file.
#[derive(Clone, Copy, Debug, PartialEq, Eq)]
pub struct Show<'a> {
    /// The name of the program.
    pub program: &'a str,
}

/// The command `asm FILE`, by the name of its file.
#[derive(Clone, Copy, Debug, PartialEq, Eq)]
pub struct Assemble<'a> {
    /// The name of the CASM text.
    pub file: &'a str,
}

/// A command, with the names of the files that it reads.
#[derive(Clone, Copy, Debug, PartialEq, Eq)]
pub enum Command<'a> {
    /// `check PROGRAM INPUT RUN`: whether a run is accepted, and what it shows.
    Check(Check<'a>),
    /// `run PROGRAM INPUT`: the run file of the honest run.
    Run(Execute<'a>),
    /// `eval PROGRAM INPUT`: what a program means on an input.
    Eval(Evaluate<'a>),
    /// `gas PROGRAM`: the gas plan of a program.
    Gas(Gas<'a>),
    /// `show PROGRAM`: a program in the plain layout.
    Show(Show<'a>),
    /// `asm FILE`: the words of a CASM text.
    Asm(Assemble<'a>),
    /// A command that isn't built yet.
    Planned,
}

impl<'a> Check<'a> {
    /// The check that the arguments ask for.
    fn of(arguments: &'a [String]) -> Option<Check<'a>>
        ensures { MatchOption result
            ((check : CheckNames) → IsCommand (map string_bytes arguments.now) (commands.Check check) → ⊥)
            (λ check. IsCommand (map string_bytes arguments.now) (commands.Check check)) }
    {
        match arguments {
            [word, program, input, run] if word.as_str() == "check" => Some(Check {
                program: program.as_str(),
                input: input.as_str(),
                run: run.as_str(),
            }),
            _ => None,
        }
    }
}

impl<'a> Execute<'a> {
    /// The run that the arguments ask for.
    fn of(arguments: &'a [String]) -> Option<Execute<'a>>
        ensures { MatchOption result
            ((execute : ExecuteNames) → IsCommand (map string_bytes arguments.now) (commands.Run execute) → ⊥)
            (λ execute. IsCommand (map string_bytes arguments.now) (commands.Run execute)) }
    {
        match arguments {
            [word, program, input] if word.as_str() == "run" => Some(Execute {
                program: program.as_str(),
                input: input.as_str(),
            }),
            _ => None,
        }
    }
}

impl<'a> Evaluate<'a> {
    /// The program and the input of which the arguments ask for the meaning.
    fn of(arguments: &'a [String]) -> Option<Evaluate<'a>>
        ensures { MatchOption result
            ((evaluate : EvaluateNames) → IsCommand (map string_bytes arguments.now) (commands.Eval evaluate) → ⊥)
            (λ evaluate. IsCommand (map string_bytes arguments.now) (commands.Eval evaluate)) }
    {
        match arguments {
            [word, program, input] if word.as_str() == "eval" => Some(Evaluate {
                program: program.as_str(),
                input: input.as_str(),
            }),
            _ => None,
        }
    }
}

impl<'a> Gas<'a> {
    /// The program of which the arguments ask for the gas plan.
    fn of(arguments: &'a [String]) -> Option<Gas<'a>>
        ensures { MatchOption result
            ((gas : GasName) → IsCommand (map string_bytes arguments.now) (commands.Gas gas) → ⊥)
            (λ gas. IsCommand (map string_bytes arguments.now) (commands.Gas gas)) }
    {
        match arguments {
            [word, program] if word.as_str() == "gas" => Some(Gas {
                program: program.as_str(),
            }),
            _ => None,
        }
    }
}

impl<'a> Show<'a> {
    /// The program that the arguments ask to be shown.
    fn of(arguments: &'a [String]) -> Option<Show<'a>>
        ensures { MatchOption result
            ((show : ShowName) → IsCommand (map string_bytes arguments.now) (commands.Show show) → ⊥)
            (λ show. IsCommand (map string_bytes arguments.now) (commands.Show show)) }
    {
        match arguments {
            [word, program] if word.as_str() == "show" => Some(Show {
                program: program.as_str(),
            }),
            _ => None,
        }
    }
}

impl<'a> Assemble<'a> {
    /// The text that the arguments ask to be assembled.
    fn of(arguments: &'a [String]) -> Option<Assemble<'a>>
        ensures { MatchOption result
            ((assemble : AssembleName) → IsCommand (map string_bytes arguments.now) (commands.Asm assemble) → ⊥)
            (λ assemble. IsCommand (map string_bytes arguments.now) (commands.Asm assemble)) }
    {
        match arguments {
            [word, file] if word.as_str() == "asm" => Some(Assemble {
                file: file.as_str(),
            }),
            _ => None,
        }
    }
}

impl<'a> Command<'a> {
    /// The command that the arguments are, if they are one.
    pub fn of(arguments: &'a [String]) -> Option<Command<'a>>
        ensures { Parses (map string_bytes arguments.now) result }
    {
        if let Some(check) = Check::of(arguments) {
            Some(Command::Check(check))
        } else if let Some(execute) = Execute::of(arguments) {
            Some(Command::Run(execute))
        } else if let Some(evaluate) = Evaluate::of(arguments) {
            Some(Command::Eval(evaluate))
        } else if let Some(gas) = Gas::of(arguments) {
            Some(Command::Gas(gas))
        } else if let Some(show) = Show::of(arguments) {
            Some(Command::Show(show))
        } else if let Some(assemble) = Assemble::of(arguments) {
            Some(Command::Asm(assemble))
        } else if is_planned(arguments) {
            Some(Command::Planned)
        } else {
            None
        }
    }

    /// The name of a source's file, for a source that the command reads.
    pub fn name(&self, source: Source) -> Option<&'a str>
        ensures { option_map (λ name. name.now) result ≡ name_of (Some self.now) source }
    {
        match (self, source) {
            (Command::Check(check), Source::Program) => Some(check.program),
            (Command::Check(check), Source::Input) => Some(check.input),
            (Command::Check(check), Source::Run) => Some(check.run),
            (Command::Run(execute), Source::Program) => Some(execute.program),
            (Command::Run(execute), Source::Input) => Some(execute.input),
            (Command::Eval(evaluate), Source::Program) => Some(evaluate.program),
            (Command::Eval(evaluate), Source::Input) => Some(evaluate.input),
            (Command::Gas(gas), Source::Program) => Some(gas.program),
            (Command::Show(show), Source::Program) => Some(show.program),
            (Command::Asm(assemble), Source::Casm) => Some(assemble.file),
            _ => None,
        }
    }

    /// The same, which is empty for a source that the command doesn't read.
    pub fn file(&self, source: Source) -> &'a str
        ensures { result.now ≡ unwrap_or (name_of (Some self.now) source) [] }
    {
        self.name(source).unwrap_or("")
    }
}

/// Whether the arguments are a command that isn't built.
fn is_planned(arguments: &[String]) -> bool
    ensures { IsTrue result ↔ IsPlanned (map string_bytes arguments.now) }
{
    match arguments.split_first() {
        Some((word, others)) => takes(word.as_str(), others),
        None => false,
    }
}

/// Whether a command of this word, which isn't built, takes these further arguments.
fn takes(word: &str, others: &[String]) -> bool
    ensures { IsTrue result ↔ IsPlanned (word.now ∷ map string_bytes others.now) }
{
    match word {
        "compile" => others.len() == 1,
        "run" => others.len() == 3,
        "make" => is_one_number(others),
        _ => false,
    }
}

/// Whether the arguments are one, a number below `2^64` in decimal digits without a leading zero.
fn is_one_number(arguments: &[String]) -> bool
    ensures { IsTrue result ↔ ((number : ℕ) × (number < 2 ^ 64) × (map string_bytes arguments.now ≡ decimal_text number ∷ [])) }
{
    match arguments {
        [argument] => read_decimal(argument.as_bytes(), u128::from(u64::MAX)).is_ok(),
        _ => false,
    }
}
