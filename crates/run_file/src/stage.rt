//! The order of a run file: which number stands where, and what it completes.
//! What comes in is a stage and the eight bytes of the next number; what goes out is the stage behind it, and the part of
//! the run that is whole by then, or the refusal. The reader goes from stage to stage.

ghost use Rattle.std.specs.Prelude.{◌≡◌, ◌<◌, ◌≤◌, ◌^◌, ℕ, length, IfOk, IsTrue};
ghost use Rattle.byte_reading.specs.Reading.{Place};
ghost use Rattle.run_file.specs.Spelling.{Listing};
ghost use Rattle.run_file.specs.Reading.{word_at, address_at, steps_at};
ghost use Rattle.run_file.specs.Stages.{ReadsAs, GoesOn, from_cells, from_states, from_word, from_stage, with_part, Fits, KeepsFit, StaysInStates, advanced, in_states};
ghost use Rattle.ro_machine.specs.Cells.{Cells, NoneFrom};

use crate::refusal::FileRefusal;
use felt64::Felt;
use ro_machine::State;

/// The first eight bytes of each run file.
pub const MAGIC: [u8; 8] = *b"SIERRUN1";

/// The number that comes next. `left` counts the cells or the states behind the one that it belongs to.
#[derive(Clone, Copy, Debug)]
pub enum Stage {
    /// The magic, whose eight bytes are taken as a number's.
    Magic,
    /// The count of cells.
    CellCount,
    /// The address of a cell, at least `least`.
    Address { least: u64, left: u64 },
    /// The count of steps.
    StepCount,
    /// Another number of the field.
    Word(Meaning),
    /// No number: the file is whole.
    End,
}

/// What a number of the field is.
#[derive(Clone, Copy, Debug)]
pub enum Meaning {
    /// The address of the first range-check cell.
    Rc,
    /// The word of the cell at this address.
    CellWord { address: Felt, left: u64 },
    /// The first number of a state.
    Pc { left: u64 },
    /// The second number of a state.
    Ap { pc: Felt, left: u64 },
    /// The last number of a state.
    Fp { pc: Felt, ap: Felt, left: u64 },
}

/// What comes behind a number.
#[derive(Clone, Copy, Debug)]
struct Next {
    /// The stage of the number that comes next.
    stage: Stage,
    /// The part that is whole by then.
    part: Part,
}

/// The part of a run that a number completes.
#[derive(Clone, Copy, Debug)]
pub enum Part {
    /// None.
    Nothing,
    /// The address of the first range-check cell.
    Rc(Felt),
    /// A cell.
    Cell { address: Felt, word: Felt },
    /// The number of steps, one less than that of the states.
    Steps(u64),
    /// A state.
    State(State),
}

impl Stage {
    /// Goes to the stage behind a number that begins at the offset `at`, and gives the part that is whole by then.
    pub fn advance(&mut self, at: u64, number: [u8; 8]) -> Result<Part, FileRefusal>
        requires { length number ≡ 8 }
        ensures goes_on { GoesOn self.old at number (advanced self.new result) }
        ensures fits { IfOk result (λ part. KeepsFit self.old (record { stage = self.new; part = part })) }
        ensures room { IfOk result (λ part. IsTrue (in_states self.old) → StaysInStates (record { stage = self.new; part = part })) }
    {
        match self.next(at, number) {
            Ok(next) => {
                *self = next.stage;
                Ok(next.part)
            }
            Err(refusal) => Err(refusal),
        }
    }

    /// What comes behind a number that begins at the offset `at`.
    fn next(self, at: u64, number: [u8; 8]) -> Result<Next, FileRefusal>
        requires { length number ≡ 8 }
        ensures goes_on { GoesOn self at number result }
        ensures fits { IfOk result (λ next. KeepsFit self next) }
        ensures room { IfOk result (λ next. IsTrue (in_states self) → StaysInStates next) }
    {
        match self {
            Stage::Magic => magic(number),
            Stage::CellCount => Ok(cells(0, u64::from_le_bytes(number)).without_part()),
            Stage::Address { least, left } => {
                let address = address(least, at, number)?;
                Ok(Stage::Word(Meaning::CellWord { address, left }).without_part())
            }
            Stage::StepCount => {
                let left = steps(number)?;
                Ok(Stage::Word(Meaning::Pc { left }).with(Part::Steps(left)))
            }
            Stage::Word(meaning) => Ok(meaning.next(word(at, number)?)),
            Stage::End => Err(FileRefusal::Extra(at)),
        }
    }

    /// This stage, and a part.
    fn with(self, part: Part) -> Next
        ensures { result ≡ record { stage = self; part = part } }
    {
        Next { stage: self, part }
    }

    /// This stage, and no part.
    fn without_part(self) -> Next
        ensures { result ≡ record { stage = self; part = Part.Nothing } }
    {
        self.with(Part::Nothing)
    }
}

impl Meaning {
    /// What comes behind the number.
    fn next(self, word: Felt) -> Next
        ensures goes_on { (l : Listing) (p : Place) → from_word self word l p ≡ from_stage result.stage (with_part l result.part) p }
        ensures fits { KeepsFit (Stage.Word self) result }
        ensures room { IsTrue (in_states (Stage.Word self)) → StaysInStates result }
    {
        match self {
            Meaning::Rc => Stage::CellCount.with(Part::Rc(word)),
            Meaning::CellWord { address, left } => {
                cells(address.value() + 1, left).with(Part::Cell { address, word })
            }
            Meaning::Pc { left } => Stage::Word(Meaning::Ap { pc: word, left }).without_part(),
            Meaning::Ap { pc, left } => Stage::Word(Meaning::Fp {
                pc,
                ap: word,
                left,
            }).without_part(),
            Meaning::Fp { pc, ap, left } => states(left).with(Part::State(State {
                pc,
                ap,
                fp: word,
            })),
        }
    }
}

/// Passes where the bytes are the magic.
fn magic(bytes: [u8; 8]) -> Result<Next, FileRefusal>
    requires { length bytes ≡ 8 }
    ensures goes_on { (at : ℕ) → GoesOn Stage.Magic at bytes result }
    ensures fits { IfOk result (λ next. KeepsFit Stage.Magic next) }
{
    if bytes == MAGIC {
        Ok(Stage::Word(Meaning::Rc).without_part())
    } else {
        Err(FileRefusal::Magic)
    }
}

/// The word of these bytes.
fn word(at: u64, number: [u8; 8]) -> Result<Felt, FileRefusal>
    requires { length number ≡ 8 }
    ensures { ReadsAs word_at at number result }
{
    match Felt::new(u64::from_le_bytes(number)) {
        Some(word) => Ok(word),
        None => Err(FileRefusal::WordRange(at)),
    }
}

/// The address of these bytes, which may not be below `least`.
fn address(least: u64, at: u64, number: [u8; 8]) -> Result<Felt, FileRefusal>
    requires { length number ≡ 8 }
    ensures read { ReadsAs (address_at least) at number result }
    ensures least { IfOk result (λ address. least ≤ address) }
{
    let address = word(at, number)?;
    if address.value() < least {
        return Err(FileRefusal::Order(at));
    }
    Ok(address)
}

/// The number of steps of these bytes.
fn steps(number: [u8; 8]) -> Result<u64, FileRefusal>
    requires { length number ≡ 8 }
    ensures read { (at : ℕ) → ReadsAs steps_at at number result }
    ensures below { IfOk result (λ n. n < 2 ^ 32) }
{
    let steps = u64::from_le_bytes(number);
    if steps < 1 << 32 {
        Ok(steps)
    } else {
        Err(FileRefusal::StepsAbove)
    }
}

/// The stage of so many cells, the first of them at `least` or above.
fn cells(least: u64, count: u64) -> Stage
    ensures goes_on { (l : Listing) (p : Place) → from_stage result l p ≡ from_cells least count l p }
    ensures fits { (cells : Cells) (room : ℕ) → NoneFrom cells least → Fits result cells room }
{
    match count {
        0 => Stage::StepCount,
        _ => Stage::Address {
            least,
            left: count - 1,
        },
    }
}

/// The stage of so many states.
fn states(count: u64) -> Stage
    ensures goes_on { (l : Listing) (p : Place) → from_stage result l p ≡ from_states count l p }
    ensures fits { (cells : Cells) (room : ℕ) → count ≤ room → Fits result cells room }
    ensures room { IsTrue (in_states result) }
{
    match count {
        0 => Stage::End,
        _ => Stage::Word(Meaning::Pc { left: count - 1 }),
    }
}
