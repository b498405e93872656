//! Texts with their normal forms, and faults, that an independent assembler answered. More faults are on the page of examples.

use casm_text::*;
use std::test::Fail;
use text_reading::Place;

/// Texts with what is printed of their code.
const TEXTS: [(&[u8], &str); 6] = [
    (b"", ""),
    (
        b"//\xc3\xa9\xff [\n[ap+0]=//x\r\n[fp\t+\n-3]\r+ 7 , ap++ ;ret //y\n;",
        "[ap + 0] = [fp + -3] + 7, ap++;\nret;\n",
    ),
    (
        b"[ap + - 32768] = [[fp + 32767] + 32767];[ap + 0] = 9223372034707292161;",
        "[ap + -32768] = [[fp + 32767] + 32767];\n[ap + 0] = -9223372034707292160;\n",
    ),
    (
        b"jmp rel 4if [ap + -3] != 0;jmp rel[ap+1]if[ap+-3]!=0, ap++;",
        "jmp rel 4 if [ap + -3] != 0;\njmp rel [ap + 1] if [ap + -3] != 0, ap++;\n",
    ),
    (
        b"call abs[ap+2];call rel -5;jmp abs 4, ap++;",
        "call abs [ap + 2];\ncall rel -5;\njmp abs 4, ap++;\n",
    ),
    (
        b"ap+=[[ap+1]+5];ap += [fp + 1] * [ap + 5];jmp rel [[fp + 2] + 3];//",
        "ap += [[ap + 1] + 5];\nap += [fp + 1] * [ap + 5];\njmp rel [[fp + 2] + 3];\n",
    ),
];

#[test]
fn texts(rt: HostRuntime) -> Result<(), Fail> {
    for (text, want) in TEXTS {
        let code = assemble(rt.alloc(), text)?;
        let printed = print(rt.alloc(), &code)?;
        assert_eq!(rt; printed.as_str(), want);
    }
    Ok(())
}

/// Texts with what is wrong with them.
const FAULTS: [(&[u8], AsmFault); 4] = [
    (b"ret\n", AsmFault::Syntax(Place { line: 2, column: 1 })),
    (
        b"call rel [[ap + 0] + 1];",
        AsmFault::Syntax(Place {
            line: 1,
            column: 11,
        }),
    ),
    (
        b"\n[ap + 0] = [[fp + 0] + -32769];",
        AsmFault::OffsetRange(2),
    ),
    (b"[ap + 0] = -18446744069414584321;", AsmFault::ImmRange(1)),
];

#[test]
fn faults(rt: HostRuntime) -> Result<(), Fail> {
    for (text, want) in FAULTS {
        assert_eq!(rt; assemble(rt.alloc(), text).err(), Some(want));
    }
    Ok(())
}
