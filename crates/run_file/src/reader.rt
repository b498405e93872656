//! Run files that come in pieces: what the tool and the trace check read a run from.
//! Pieces of a file come in, however they are cut; the first refusal in byte order goes out as soon as its byte has come,
//! or at the end the run.

ghost use Rattle.std.specs.Prelude.{◌≡◌, ◌≢◌, ◌+◌, ◌<◌, ◌≤◌, ◌^◌, ◌++◌, ℕ, List, [], length, OnOk, IfOk, IfErr, IsTrue, Some, Err};
ghost use Rattle.byte_reading.specs.Reading.{Gives};
ghost use Rattle.run_file.specs.declared.refusal.FileRefusal.{FileRefusal};
ghost use Rattle.run_file.specs.declared.run.Run.{Run};
ghost use Rattle.run_file.specs.Spelling.{IsRun, spelling};
ghost use Rattle.run_file.specs.Reading.{reading, refusal_in};
ghost use Rattle.run_file.specs.Stages.{IsFinal, in_states};
ghost use Rattle.run_file.specs.Progress.{IsProgress, rest_of, offset_behind};
ghost use Rattle.run_file.specs.Feeding.{taken, says, has_room};

use crate::progress::Progress;
use crate::refusal::FileRefusal;
use crate::run::Run;
use byte_reading::Unfinished;
use std::alloc::Global;
use std::marker::Model;

/// A run file that was read so far.
///
/// Contracts see how many bytes were fed, 0 behind a refusal, and what the file says if given bytes are its rest. It keeps what it has
/// read and at most 23 bytes of a state that isn't whole, so feeding takes linear time, however the file is cut. A
/// reader that refused, out of memory too, gives the same refusal again and takes nothing.
#[derive(Debug, Drop)]
pub struct Reader {
    progress: Progress,
    unfinished: Unfinished,
    refused: Option<FileRefusal>,
}

impl Model for Reader {
    ghost use Rattle.run_file.specs.Feeding.{Fed, fed, IsReader};

    ghost Value = { Fed };

    ghost view = { λ reader. fed reader.progress reader.unfinished reader.refused };

    ghost invariant = { λ reader. IsReader reader.progress reader.unfinished reader.refused };
}

impl Reader {
    /// No bytes fed. It takes no memory; later calls of `feed` take theirs from `alloc`.
    pub fn new(alloc: Global) -> Reader
        ensures taken { taken result ≡ 0 }
        ensures says { (bytes : List ℕ) → says result bytes ≡ reading bytes }
    {
        Reader {
            progress: Progress::new(alloc),
            unfinished: Unfinished::new(),
            refused: None,
        }
    }

    /// Takes the next bytes of the file, and answers a refusal that no byte to come can change.
    ///
    /// So how the file is cut makes no difference: fed two pieces, it answers as if they had been fed as one. Room for
    /// all states is taken when their number has come; behind it a call takes no memory.
    pub fn feed(&mut self, piece: &[u8]) -> Result<(), FileRefusal>
        requires { taken self.old + length piece.now < 2 ^ 64 }
        // A refusal of the bytes so far, other than that the file ends early.
        ensures answer { Gives FileRefusal.Memory (λ x. x) result (refusal_in (says self.old piece.now)) }
        // What the rest of the file says.
        ensures says { result ≢ Err FileRefusal.Memory → (more : List ℕ) → says self.new more ≡ says self.old (piece.now ++ more) }
        ensures refused { IfErr result (λ e. (self.new.refused ≡ Some e) × (taken self.new ≡ 0) × ((more : List ℕ) → says self.new more ≡ Err e)) }
        // A reader that refused answers the same again and takes nothing.
        ensures again { (e : FileRefusal) → self.old.refused ≡ Some e → (result ≡ Err e) × (self.new ≡ self.old) }
        ensures taken { OnOk result (taken self.new ≡ taken self.old + length piece.now) }
        // In the states memory can't run out.
        ensures room { IsTrue (has_room self.old) → result ≢ Err FileRefusal.Memory }
        ensures keeps_room { OnOk result (IsTrue (has_room self.old) → IsTrue (has_room self.new)) }
    {
        if let Some(refusal) = self.refused {
            return Err(refusal);
        }
        match take(&mut self.progress, &mut self.unfinished, piece) {
            Ok(()) => Ok(()),
            Err(refusal) => {
                self.refused = Some(refusal);
                Err(refusal)
            }
        }
    }

    /// The run of the file that was fed, or the refusal. A file that ends early is refused here alone.
    pub fn finish(self) -> Result<Run, FileRefusal>
        ensures { result ≡ says self [] }
    {
        if let Some(refusal) = self.refused {
            return Err(refusal);
        }
        self.progress.ends(self.unfinished.as_slice())?;
        Ok(self.progress.into_run())
    }
}

/// The run that the bytes spell, all of the bytes: the file is the magic `SIERRUN1` and then numbers of
/// eight bytes, the least significant first. They are the address of the first range-check cell, the count of
/// cells, the cells with address and word, the count of steps, and the states with pc, ap and fp.
///
/// It takes time linear in the number of bytes.
pub fn read(alloc: Global, bytes: &[u8]) -> Result<Run, FileRefusal>
    // What is read is spelled so.
    ensures found { IfOk result (λ run. IsRun run × (bytes.now ≡ spelling run)) }
    // What is spelled so is read, unless memory runs out.
    ensures only { (run : Run) → IsRun run → bytes.now ≡ spelling run
        → Gives FileRefusal.Memory (λ r. r) result (Ok run) }
    // Which refusal it is.
    ensures exact { Gives FileRefusal.Memory (λ r. r) result (reading bytes.now) }
{
    read_whole(alloc, bytes)
}

/// Feeds all bytes as one piece.
fn read_whole(alloc: Global, bytes: &[u8]) -> Result<Run, FileRefusal>
    ensures { Gives FileRefusal.Memory (λ r. r) result (reading bytes.now) }
{
    let mut reader = Reader::new(alloc);
    reader.feed(bytes)?;
    reader.finish()
}

/// Takes a piece number by number, and keeps the bytes behind the last whole one.
fn take(
    progress: &mut Progress,
    unfinished: &mut Unfinished,
    piece: &[u8],
) -> Result<(), FileRefusal>
    requires fits { IsProgress progress.old }
    requires offset { offset_behind progress.old unfinished.old + length piece.now < 2 ^ 64 }
    ensures fits { OnOk result (IsProgress progress.new) }
    ensures taken { OnOk result (offset_behind progress.new unfinished.new ≡ offset_behind progress.old unfinished.old + length piece.now) }
    ensures rest { OnOk result ((more : List ℕ) → rest_of progress.new (unfinished.new ++ more) ≡ rest_of progress.old (unfinished.old ++ (piece.now ++ more))) }
    ensures waits { OnOk result (refusal_in (rest_of progress.new unfinished.new) ≡ Ok tt) }
    ensures keeps_room { OnOk result (IsTrue (in_states progress.old.stage) → IsTrue (in_states progress.new.stage)) }
    ensures refusal { IfErr result (λ e. e ≢ FileRefusal.Memory → IsFinal e × ((more : List ℕ) → rest_of progress.old (unfinished.old ++ (piece.now ++ more)) ≡ Err e)) }
    ensures room { IsTrue (in_states progress.old.stage) → result ≢ Err FileRefusal.Memory }
{
    let mut rest = piece;
    while let Some(number) = unfinished.next(&mut rest) {
        progress.take(number)?;
    }
    match progress.ends(unfinished.as_slice()) {
        Ok(()) => Ok(()),
        Err(refusal) => match refusal {
            // A file that ends early may still go on.
            FileRefusal::Cut(_) => Ok(()),
            _ => Err(refusal),
        },
    }
}
