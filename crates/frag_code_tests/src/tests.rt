//! Fragments that are emitted and run by the machine's steps over cells that the tests lay.

use casm_word::{At, CellExpr, CellRef, Code, Reg, Side, words};
use felt64::Felt;
use frag_code::{Ask, Emitted, Frag, Piece, emit};
use hint_source::Kind;
use ro_machine::{Memory, State, StepFault, step};
use std::process::Abort;
use std::test::Fail;

/// Where the code begins, and the cells of its two branches.
const AT: u64 = 100;

const EXITS: [u64; 2] = [500, 600];

/// ap and fp at the begin of a fragment.
const AP: u32 = 1000;

/// The two cells below ap, and the arguments, of which the second is the range-check pointer.
const LAST: At = At {
    base: Reg::Ap,
    off: -1,
};

const LAST_BUT_ONE: At = At {
    base: Reg::Ap,
    off: -2,
};

const SELECTOR: At = At {
    base: Reg::Fp,
    off: -3,
};

const POINTER: At = At {
    base: Reg::Fp,
    off: -4,
};

const NUMBER: At = At {
    base: Reg::Fp,
    off: -5,
};

/// What the two hints of `branching` ask.
const IS_ZERO: Ask = Kind::Less {
    a: CellExpr::Cell(SELECTOR),
    b: CellExpr::Imm(1),
};

const THIRD: Ask = Kind::Quotient {
    a: CellExpr::Cell(NUMBER),
    b: CellExpr::Imm(3),
};

fn felt(n: u64) -> Felt {
    Felt::reduce(u128::from(n))
}

/// Every form of piece and of expression: with 0 at `fp - 3` it ends with branch 0, else with branch 1.
fn branching(rt: &HostRuntime) -> Result<Emitted, Fail> {
    let pieces = [
        Piece::Hint {
            cell: CellRef::ap(9),
            ask: IS_ZERO,
        },
        Piece::IfNonZero(CellRef::fp(-3), 11),
        Piece::Let(CellExpr::Cell(NUMBER)),
        Piece::Let(CellExpr::DoubleCell(POINTER, 1)),
        Piece::Let(CellExpr::Imm(9)),
        Piece::Let(CellExpr::Sum(LAST, Side::Cell(LAST_BUT_ONE))),
        Piece::Let(CellExpr::Product(LAST, Side::Imm(3))),
        Piece::Let(CellExpr::Diff(NUMBER, Side::Cell(SELECTOR))),
        Piece::Let(CellExpr::Diff(NUMBER, Side::Imm(0))),
        Piece::Reserve(2),
        Piece::Exit(0),
        Piece::Assert(CellRef::ap(0), CellExpr::Diff(NUMBER, Side::Imm(8))),
        Piece::Assert(CellRef::ap(1), CellExpr::Sum(NUMBER, Side::Imm(8))),
        Piece::Assert(
            CellRef::ap(2),
            CellExpr::Product(NUMBER, Side::Cell(NUMBER)),
        ),
        Piece::Assert(CellRef::ap(3), CellExpr::Diff(NUMBER, Side::Cell(SELECTOR))),
        Piece::Range {
            pointer: CellRef::fp(-4),
            at: 1,
            cell: CellRef::fp(-5),
        },
        Piece::Hint {
            cell: CellRef::ap(5),
            ask: THIRD,
        },
        Piece::Reserve(4),
        Piece::Exit(1),
    ];
    let f = Frag::from_pieces(rt.alloc(), &pieces)?;
    Ok(emit(rt.alloc(), &f, AT, &EXITS)?)
}

/// A fragment without an `IfNonZero`.
fn straight(rt: &HostRuntime) -> Result<Emitted, Fail> {
    let pieces = [
        Piece::Hint {
            cell: CellRef::ap(0),
            ask: Kind::Fresh,
        },
        Piece::Let(CellExpr::Cell(LAST)),
        Piece::Exit(0),
    ];
    let f = Frag::from_pieces(rt.alloc(), &pieces)?;
    Ok(emit(rt.alloc(), &f, AT, &[AT + 1])?)
}

/// The cells of both branches: the frame's at `fp - 2` and `fp - 1`, the arguments at `fp - 5` and `fp - 4`, and what
/// stands behind the pointer.
const CELLS: [(u32, u64); 5] = [(995, 7), (996, 2000), (998, 1), (999, 1), (2001, 7)];

/// The cells that a branch gives or asserts, with 0 and with 5 at `fp - 3`.
const WITH_ZERO: [(u32, u64); 8] = [
    (997, 0),
    (1000, 7),
    (1001, 7),
    (1002, 9),
    (1003, 16),
    (1004, 48),
    (1005, 7),
    (1006, 7),
];

const WITH_FIVE: [(u32, u64); 5] = [
    (997, 5),
    (1000, 0xffff_ffff_0000_0000),
    (1001, 15),
    (1002, 49),
    (1003, 2),
];

/// A memory with the code of the fragment and the cells of both branches.
fn laid(rt: &HostRuntime, code: &Code) -> Result<Memory, Fail> {
    let mut memory = Memory::new(rt.alloc());
    for (i, word) in words(rt.alloc(), code)?.iter().enumerate() {
        memory.insert(felt(AT).add(felt(i as u64)), felt(*word))?;
    }
    for (address, word) in CELLS {
        memory.insert(Felt::from(address), felt(word))?;
    }
    Ok(memory)
}

/// Steps from the first code cell until the pc is one of the exits, or 50 of them: how many, and the last state.
fn run(memory: &Memory, exits: &[u64]) -> Result<(u32, State), StepFault> {
    let mut state = State {
        pc: felt(AT),
        ap: Felt::from(AP),
        fp: Felt::from(AP),
    };
    for steps in 0..50 {
        if exits.iter().any(|exit| *exit == state.pc.value()) {
            return Ok((steps, state));
        }
        state = step(memory, state)?;
    }
    Ok((50, state))
}

#[test]
fn each_form_runs(rt: HostRuntime) -> Result<(), Fail> {
    let e = branching(&rt)?;
    assert_eq!(rt; words(rt.alloc(), &e.code)?.len(), 27);
    let rows = [
        (&WITH_ZERO[..], 10, EXITS[0], AP + 9),
        (&WITH_FIVE[..], 8, EXITS[1], AP + 4),
    ];
    for (cells, want_steps, pc, ap) in rows {
        let mut memory = laid(&rt, &e.code)?;
        for (address, word) in cells {
            memory.insert(Felt::from(*address), felt(*word))?;
        }
        let (steps, last) = run(&memory, &EXITS)?;
        assert_eq!(rt; steps, want_steps);
        assert_eq!(rt; last.pc, felt(pc));
        assert_eq!(rt; last.ap, Felt::from(ap));
        assert_eq!(rt; last.fp, Felt::from(AP));
    }
    Ok(())
}

/// The hints are asked at the code cells of the steps behind them, the second one 23 cells on.
#[test]
fn hints_have_their_places(rt: HostRuntime) -> Result<(), Fail> {
    let hints = branching(&rt)?.hints;
    let rows = [
        (AT, CellRef::ap(9), IS_ZERO),
        (AT + 23, CellRef::ap(5), THIRD),
    ];
    assert_eq!(rt; hints.len(), rows.len());
    for (hint, (pc, cell, ask)) in hints.iter().zip(rows) {
        assert_eq!(rt; hint.pc, pc);
        assert_eq!(rt; hint.cell, cell);
        assert_eq!(rt; hint.ask, ask);
    }
    Ok(())
}

/// A range check is stuck where the cell behind the pointer has another word.
#[test]
fn range_cells_count(rt: HostRuntime) -> Result<(), Fail> {
    let e = branching(&rt)?;
    let mut memory = Memory::new(rt.alloc());
    for (i, word) in words(rt.alloc(), &e.code)?.iter().enumerate() {
        memory.insert(felt(AT).add(felt(i as u64)), felt(*word))?;
    }
    for (address, word) in CELLS.iter().chain(&WITH_FIVE) {
        let word = felt(*word).add(Felt::from(u32::from(*address == 2001)));
        memory.insert(Felt::from(*address), word)?;
    }
    assert!(rt; matches!(run(&memory, &EXITS), Err(StepFault::AssertFails(..))));
    Ok(())
}

/// With a word one too high in any cell that an assertion of branch 1 reads, the branch is stuck.
#[test]
fn each_cell_counts(rt: HostRuntime) -> Result<(), Fail> {
    let e = branching(&rt)?;
    for wrong in 1..WITH_FIVE.len() {
        let mut memory = laid(&rt, &e.code)?;
        for (i, (address, word)) in WITH_FIVE.iter().enumerate() {
            let word = felt(*word).add(Felt::from(u32::from(i == wrong)));
            memory.insert(Felt::from(*address), word)?;
        }
        assert!(rt;
            matches!(run(&memory, &EXITS), Err(StepFault::AssertFails(..))),
            "cell {wrong}"
        );
    }
    Ok(())
}

/// A fragment without an `IfNonZero` falls through to the cell after its code, and the Exit takes no step.
#[test]
fn straight_code_falls_through(rt: HostRuntime) -> Result<(), Fail> {
    let e = straight(&rt)?;
    let mut memory = laid(&rt, &e.code)?;
    memory.insert(Felt::from(AP), felt(1))?;
    let (steps, last) = run(&memory, &[AT + 1])?;
    assert_eq!(rt; (steps, last.ap), (1, Felt::from(AP + 1)));
    Ok(())
}

#[test]
fn pieces_are_pushed(rt: HostRuntime) -> Result<(), Fail> {
    let mut f = Frag::new(rt.alloc());
    f.push(Piece::Reserve(3))?;
    f.push(Piece::Exit(0))?;
    assert_eq!(rt; f.pieces().len(), 2);
    Ok(())
}
