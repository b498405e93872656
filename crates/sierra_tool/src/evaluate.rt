//! The work of `eval`, in its order: the program, the input, the meaning. The names of two files come in, and the first refusal
//! that is met goes out, or the text of the outcome.

ghost use Rattle.std.specs.Prelude.{Some};
ghost use Rattle.typed_values.specs.Shown.{input_meant};
ghost use Rattle.sierra_meaning.specs.Outcome.{Fits};
ghost use Rattle.sierra_tool.specs.Evaluating.{GivesOutcome};
ghost use Rattle.sierra_tool.specs.Stages.{OnceRead, Works};
ghost use Rattle.sierra_tool.specs.declared.command.Command.TheVariants as commands;

use crate::answer::{Answer, Bytes, Stop};
use crate::command::Evaluate;
use crate::inputs::read_given;
use crate::work::read_accepted;
use edge_io::Files;
use gas_solver::Accepted;
use sierra_meaning::{EvalFault, eval};
use std::alloc::Global;
use typed_values::{Input, print_outcome};

impl Evaluate<'_> {
    /// Reads the two files, each where what came before it isn't refused, and evaluates the program.
    pub(crate) fn answer<F: Files>(&self, alloc: Global, files: &mut F) -> Result<Answer, Stop>
        ensures { Works (F.view files.old) (F.view files.new) (Some (commands.Eval self.now)) result }
    {
        let accepted = read_accepted(alloc, files, self.program)?;
        self.answer_for(alloc, files, &accepted)
    }

    /// The same, once the program has been read.
    fn answer_for<F: Files>(
        &self,
        alloc: Global,
        files: &mut F,
        accepted: &Accepted,
    ) -> Result<Answer, Stop>
        ensures { OnceRead (F.view files.old) (Some (commands.Eval self.now)) accepted.now (λ before. Works before (F.view files.new) (Some (commands.Eval self.now)) result) }
    {
        let input = read_given(alloc, files, accepted, self.input)?;
        outcome_of(alloc, accepted, &input)
    }
}

/// What the program means on the input.
fn outcome_of(alloc: Global, accepted: &Accepted, input: &Input) -> Result<Answer, Stop>
    requires { Fits accepted.now (input_meant input.now) }
    ensures { GivesOutcome accepted.now (input_meant input.now) result }
{
    match eval(alloc, accepted, input) {
        Ok(outcome) => {
            let text = print_outcome(alloc, &outcome)?;
            Ok(Answer::Evaluated(Bytes::new(text.into_bytes())))
        }
        Err(EvalFault::NotEnoughGas { need, given }) => {
            Err(Stop::Refused(Answer::NotEnoughGas { need, given }))
        }
        Err(EvalFault::Memory) => Err(Stop::OutOfMemory),
    }
}
