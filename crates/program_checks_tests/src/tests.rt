//! A program that passes, and one that is refused. Others are in the page of the program `examples`.

use program_checks::{check, refusal_line};
use sierra_text::read;
use std::alloc::Global;
use std::test::Fail;

/// The line of a program's refusal, empty where it passes.
fn line(alloc: Global, text: &str) -> Result<Vec<u8>, Fail> {
    let program = read(alloc, text.as_bytes())?;
    match check(alloc, &program) {
        Ok(_) => Ok(Vec::new(alloc)),
        Err(refusal) => Ok(refusal_line(alloc, &refusal)?),
    }
}

#[test]
fn passes_or_is_refused(rt: HostRuntime) -> Result<(), Fail> {
    let passes = line(rt.alloc(), "return(); main@0() -> ();")?;
    assert_eq!(rt; passes.as_slice(), b"".as_slice());
    let refused = line(rt.alloc(), "type felt252 = felt252;")?;
    assert_eq!(rt; refused.as_slice(), b"P10 felt252\n".as_slice());
    Ok(())
}
