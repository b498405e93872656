//! Run files, written and read.

use felt64::Felt;
use ro_machine::{Memory, State};
use run_file::{FileRefusal, Run, States, read, write};
use std::test::Fail;

fn felt(n: u64) -> Felt {
    Felt::reduce(n as u128)
}

#[test]
fn of_one_cell_and_one_state(rt: HostRuntime) -> Result<(), Fail> {
    let mut memory = Memory::new(rt.alloc());
    memory.insert(felt(6), felt(7))?;
    let state = State {
        pc: felt(2),
        ap: felt(1),
        fp: felt(1),
    };
    let states = States::new(vec![in rt.alloc(); state]?);
    let run = Run {
        rc: felt(5),
        memory,
        states,
    };
    let bytes = write(rt.alloc(), &run)?;
    let expected = b"SIERRUN1\
        \x05\x00\x00\x00\x00\x00\x00\x00\x01\x00\x00\x00\x00\x00\x00\x00\
        \x06\x00\x00\x00\x00\x00\x00\x00\x07\x00\x00\x00\x00\x00\x00\x00\
        \x00\x00\x00\x00\x00\x00\x00\x00\x02\x00\x00\x00\x00\x00\x00\x00\
        \x01\x00\x00\x00\x00\x00\x00\x00\x01\x00\x00\x00\x00\x00\x00\x00";
    assert_eq!(rt; bytes.as_slice(), expected.as_slice());
    let again = read(rt.alloc(), &bytes)?;
    assert_eq!(rt; again.rc, felt(5));
    assert_eq!(rt; again.memory.get(felt(6)), Some(felt(7)));
    assert_eq!(rt; again.states.as_slice(), [state].as_slice());
    let cut = bytes.get(..71).ok_or("the file is shorter")?;
    assert_eq!(rt; read(rt.alloc(), cut).err(), Some(FileRefusal::Cut(71)));
    Ok(())
}
