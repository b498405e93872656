//! The honest run of a program on an input, and its file. A program and an input come in; a run that is accepted goes
//! out, which lists the code, the argument and the cells that its steps read, and no others. The tool writes it.

ghost use Rattle.std.specs.Prelude.{◌≡◌, ◌<◌, ◌+◌, ◌++◌, length, IfOk, OnOk, None};
ghost use Rattle.std.specs.FinMap.{get, insert, entries};
ghost use Rattle.felt64.specs.Field.{modulus};
ghost use Rattle.ro_machine.specs.Cells.{NoneFrom};
ghost use Rattle.run_file.specs.Spelling.{spelling};
ghost use Rattle.first_form.specs.Honest.{cells_from, honest_states, honest_run};

use crate::code::code_words;
use crate::input::Input;
use crate::program::Program;
use felt64::Felt;
use ro_machine::{Memory, State};
use run_file::{Run, States};
use std::alloc::{AllocError, Global};

/// The address of the argument's cell, where the execution begins.
const EXECUTION_START: u128 = 1 << 32;

/// The address of the frame of the first state, behind the argument.
const FIRST_FRAME: u128 = EXECUTION_START + 1;

/// The address of the first range-check cell.
const RANGE_START: u128 = 2 << 32;

/// The bytes of the run file of the honest run.
pub fn honest_file(alloc: Global, program: &Program, input: &Input) -> Result<Vec<u8>, AllocError>
    ensures { IfOk result (λ bytes. bytes.items ≡ spelling (honest_run program.now input.now)) }
{
    let run = honest_run(alloc, program, input)?;
    run_file::write(alloc, &run)
}

/// The honest run of a program on an input: the call to main, the instruction that computes, and the return.
pub fn honest_run(alloc: Global, program: &Program, input: &Input) -> Result<Run, AllocError>
    ensures { IfOk result (λ run. run ≡ honest_run program.now input.now) }
{
    let frame = Felt::reduce(FIRST_FRAME);
    let value = program.operation.apply(input.argument, program.constant);
    let mut memory = Memory::new(alloc);
    list_words(&mut memory, Felt::from(0), &code_words(program))?;
    let execution = [input.argument, frame, Felt::from(2), value];
    list_words(&mut memory, Felt::reduce(EXECUTION_START), &execution)?;
    Ok(Run {
        rc: Felt::reduce(RANGE_START),
        memory,
        states: States::new(honest_states(alloc, frame)?),
    })
}

/// The states before the three steps, and the state after the last one.
fn honest_states(alloc: Global, frame: Felt) -> Result<Vec<State>, AllocError>
    requires { frame ≡ FIRST_FRAME }
    ensures { IfOk result (λ states. states.items ≡ honest_states) }
{
    let callee = frame.add(Felt::from(2));
    let top = callee.add(Felt::from(1));
    let calls = state(0, frame, frame);
    let computes = state(4, callee, callee);
    let returns = state(6, top, callee);
    let ends = state(2, top, frame);
    Ok(vec![in alloc; calls, computes, returns, ends]?)
}

fn state(pc: u32, ap: Felt, fp: Felt) -> State
    ensures { result ≡ record { pc = pc; ap = ap; fp = fp } }
{
    State {
        pc: Felt::from(pc),
        ap,
        fp,
    }
}

/// Lists the words in cells from the address on, behind all that are listed.
fn list_words(memory: &mut Memory, start: Felt, words: &[Felt]) -> Result<(), AllocError>
    requires free { NoneFrom memory.old start }
    requires room { start + length words.now < modulus }
    ensures listed { OnOk result (entries memory.new ≡ entries memory.old ++ cells_from start words.now) }
    ensures free { OnOk result (NoneFrom memory.new (start + length words.now)) }
{
    let mut addr = start;
    for word in words {
        memory.insert_new(addr, *word)?;
        addr = addr.add(Felt::from(1));
    }
    Ok(())
}
