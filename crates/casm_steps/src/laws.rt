//! Laws of instructions and of paths. A law is a function without code, whose contract says what holds.

ghost use Rattle.std.specs.Prelude.{◌≡◌, ◌≢◌, ℕ, ◌+◌, ◌^◌, ◌<◌, ◌≤◌, List, ◌∷◌, ◌++◌, length, Option, Some, IsSome};
ghost use Rattle.felt64.specs.Field.{modulus, sum, difference};
ghost use Rattle.casm_word.specs.declared.cell_expr.CellExpr.{CellExpr};
ghost use Rattle.casm_word.specs.declared.instr.Instr.{Instr};
ghost use Rattle.casm_word.specs.Bounds.{IsInstrNear};
ghost use Rattle.casm_word.specs.Expressions.{lowered};
ghost use Rattle.ro_machine.specs.declared.machine.State.{State};
ghost use Rattle.ro_machine.specs.Extends.{Extends};
ghost use Rattle.ro_machine.specs.Step.{Step};
ghost use Rattle.casm_steps.specs.Executes.{Executes, HasInstr};
ghost use Rattle.casm_steps.specs.Path.{Path, Inside};
ghost use Rattle.casm_steps.specs.Reading.{reading, IsExprAbove};

/// A step from an instruction is what the instruction does. Its place is at most `2 ^ 25`, so that no sum of places wraps: code
/// has at most `2 ^ 24` words, and what is put behind it begins there.
pub fn instructions_execute()
    ensures { (m : ℕ → Option ℕ) (i : Instr) (s t : State) → IsInstrNear i → s.pc ≤ 2 ^ 25 → HasInstr m s.pc i → Step m s t → Executes m i s t }
{}

/// What an instruction does is a step, where the cell at fp - 1 is listed, which the machine reads for operands that the
/// instruction doesn't have.
pub fn instructions_step()
    ensures { (m : ℕ → Option ℕ) (i : Instr) (s t : State) → IsInstrNear i → s.pc ≤ 2 ^ 25 → HasInstr m s.pc i → IsSome (m (difference s.fp 1)) → Executes m i s t → Step m s t }
{}

/// Two paths join where one ends and the other begins, and two stretches in one interval are a stretch.
pub fn paths_join()
    ensures path { (m : ℕ → Option ℕ) (s t u : State) (us vs : List State) → Path m s us t → Path m t vs u → Path m s (us ++ vs) u }
    ensures inside { (m : ℕ → Option ℕ) (lo hi : ℕ) (s t : State) (us vs : List State) → Path m s us t → Inside lo hi s us → Inside lo hi t vs → Inside lo hi s (us ++ vs) }
{}

/// An expression has the same word where ap moved up and its offsets from ap fell by as much. No offset is below -P then.
pub fn readings_lowered()
    ensures { (m : ℕ → Option ℕ) (ap fp n : ℕ) (e : CellExpr) → IsExprAbove n e → reading m (sum ap n) fp (lowered n e) ≡ reading m ap fp e }
{}

/// A word that an expression has stays its word as cells are added.
pub fn readings_extend()
    ensures { (m more : ℕ → Option ℕ) (ap fp w : ℕ) (e : CellExpr) → Extends m more → reading m ap fp e ≡ Some w → reading more ap fp e ≡ Some w }
{}
