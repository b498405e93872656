//! Words, memory, steps and hints.

use casm_word::{
    CellRef, Code, Instr, Operand, Res, Rule, WordFault, decode, encode, flags_of, words,
};
use felt64::Felt;
use hint_source::{HintSource, Honest, Kind, Note, Overlay, Query, TeachFault};
use ro_machine::{InsertFault, Memory, State, StepFault, step};
use std::test::Fail;

const RET: u64 = 0x208b7fff7fff7ffe;

fn felt(n: u64) -> Felt {
    Felt::reduce(n as u128)
}

fn state(pc: u64, ap: u64, fp: u64) -> State {
    State {
        pc: felt(pc),
        ap: felt(ap),
        fp: felt(fp),
    }
}

#[test]
fn words_of_a_code(rt: HostRuntime) -> Result<(), Fail> {
    let mut code = Code::new(rt.alloc());
    code.push(Instr::Ret)?;
    code.push(Instr::AssertEq {
        dst: CellRef::ap(0),
        res: Res::Add(CellRef::fp(-3), Operand::Imm(7)),
        ap_inc: true,
    })?;
    let expected = [RET, 0x482680017ffd8000, 7];
    assert_eq!(rt; words(rt.alloc(), &code)?.as_slice(), expected.as_slice());
    let jump = Instr::Jump {
        rel: true,
        to: Res::Imm(0),
        ap_inc: false,
    };
    assert_eq!(rt; encode(&jump).word, 0x010780017fff7fff);
    assert_eq!(rt; decode(RET), Ok(flags_of(&Instr::Ret)));
    assert_eq!(rt;
        decode(RET | 1 << 50),
        Err(WordFault::Undefined(Rule::TwoOp1Flags))
    );
    assert_eq!(rt; decode(RET | 1 << 63), Err(WordFault::HighBit));
    Ok(())
}

#[test]
fn steps_over_a_memory(rt: HostRuntime) -> Result<(), Fail> {
    let mut memory = Memory::new(rt.alloc());
    memory.insert(felt(4), felt(0x482680017ffd8000))?;
    memory.insert(felt(5), felt(7))?;
    memory.insert(felt(100), felt(5))?;
    assert_eq!(rt;
        step(&memory, state(4, 103, 103)),
        Err(StepFault::CellMissing(felt(103)))
    );
    memory.insert(felt(103), felt(12))?;
    assert_eq!(rt; step(&memory, state(4, 103, 103)), Ok(state(6, 104, 103)));
    memory.insert(felt(103), felt(12))?;
    let again = memory.insert(felt(103), felt(13));
    assert_eq!(rt; again, Err(InsertFault::Differs { had: felt(12) }));
    assert_eq!(rt; memory.len(), 4);
    assert_eq!(rt; memory.from(felt(6)), Some((felt(100), felt(5))));
    Ok(())
}

#[test]
fn answers_of_hint_sources(rt: HostRuntime) -> Result<(), Fail> {
    let fresh = Query {
        number: 3,
        kind: Kind::Fresh,
    };
    let mut overlay = Overlay::new(rt.alloc());
    assert_eq!(rt; overlay.answer(&fresh), None);
    assert_eq!(rt; overlay.teach(3, felt(9)), Ok(()));
    assert_eq!(rt; overlay.teach(3, felt(8)), Err(TeachFault::Taken));
    assert_eq!(rt; overlay.answer(&fresh), Some(felt(9)));
    let mut honest = Honest::new(rt.alloc());
    assert_eq!(rt; honest.teach(3, felt(9)), Err(TeachFault::Declined));
    assert_eq!(rt; honest.answer(&fresh), Some(felt(12884901888)));
    assert_eq!(rt; honest.answer(&fresh), Some(felt(17179869184)));
    let written = honest.note(&Note::Written {
        log: felt(7),
        key: felt(0),
        word: felt(1),
    });
    assert_eq!(rt; written, Ok(()));
    Ok(())
}
