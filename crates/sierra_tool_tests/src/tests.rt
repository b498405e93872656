//! The tool over files and a sink in memory: a run file byte by byte, which files each command reads, and each read and each
//! write that fails. What the commands answer is in the page of the program `examples`.

use edge_io::{MemFiles, MemSink, QuietFiles, QuietSink};
use sierra_tool::{Shelf, sierra_tool};
use std::alloc::{AllocError, Global};
use std::test::Fail;

/// The program that adds 7.
const PROGRAM: &[u8] = b"type felt64 = felt64;\n\n\
    libfunc felt64_const<7> = felt64_const<7>;\n\
    libfunc felt64_add = felt64_add;\n\
    libfunc store_temp<felt64> = store_temp<felt64>;\n\n\
    felt64_const<7>() -> ([1]);\n\
    felt64_add([0], [1]) -> ([2]);\n\
    store_temp<felt64>([2]) -> ([3]);\n\
    return([3]);\n\n\
    main@0([0]: felt64) -> (felt64);\n";

/// The verdict of its run on 5.
const VERDICT: &[u8] = b"value 12\ngas used 300\nsteps 3\nchecks 0\n";

/// The numbers of the run's file: where the range checks begin, how many cells there are, each cell's address and word, how
/// many steps there are, and each state.
const RUN: [u64; 37] = [
    8589934592,
    11,
    0,
    0x1104_8001_8001_8000,
    1,
    4,
    2,
    0x0107_8001_7fff_7fff,
    3,
    0,
    4,
    0x4826_8001_7ffd_8000,
    5,
    7,
    6,
    0x208b_7fff_7fff_7ffe,
    4294967296,
    5,
    4294967297,
    4294967297,
    4294967298,
    2,
    4294967299,
    12,
    3,
    0,
    4294967297,
    4294967297,
    4,
    4294967299,
    4294967299,
    6,
    4294967300,
    4294967299,
    2,
    4294967300,
    4294967297,
];

/// Files that all calls find, by their names.
const FILES: [(&str, &[u8]); 7] = [
    ("seven", PROGRAM),
    ("five", b"gas 300\n5\n"),
    ("little", b"gas 299\n5\n"),
    ("half", b"type"),
    ("empty", b""),
    ("returns", b"return();main@0() -> ();"),
    ("ret", b"ret;"),
];

/// The file of the run of the program on 5.
fn run_file(alloc: Global) -> Result<Vec<u8>, AllocError> {
    let mut bytes = b"SIERRUN1".to_vec(alloc)?;
    for number in RUN {
        bytes.extend_from_slice(&number.to_le_bytes())?;
    }
    Ok(bytes)
}

/// The files, with the run's.
fn files(alloc: Global) -> Result<Vec<(String, Vec<u8>)>, AllocError> {
    let mut files = Vec::new(alloc);
    for (name, bytes) in FILES {
        files.push((String::from_str(alloc, name)?, bytes.to_vec(alloc)?))?;
    }
    files.push((String::from_str(alloc, "run")?, run_file(alloc)?))?;
    Ok(files)
}

/// The words of a command.
fn words(alloc: Global, text: &str) -> Result<Vec<String>, AllocError> {
    let mut words = Vec::new(alloc);
    for word in text.split_whitespace() {
        words.push(String::from_str(alloc, word)?)?;
    }
    Ok(words)
}

#[test]
fn makes_a_run_and_accepts_it(rt: HostRuntime) -> Result<(), Fail> {
    let alloc = rt.alloc();
    let mut files = QuietFiles::new(files(alloc)?);
    let mut made = QuietSink::new(alloc, 512)?;
    let run = words(alloc, "run seven five")?;
    assert_eq!(rt;
        sierra_tool(alloc, &run, &mut files, &mut made, Shelf {}),
        0
    );
    assert_eq!(rt; made.bytes(), run_file(alloc)?.as_slice());
    let mut verdict = QuietSink::new(alloc, 64)?;
    let check = words(alloc, "check seven five run")?;
    assert_eq!(rt;
        sierra_tool(alloc, &check, &mut files, &mut verdict, Shelf {}),
        0
    );
    assert_eq!(rt; verdict.bytes(), VERDICT);
    Ok(())
}

/// Commands, each with its status and the number of reads. A word that is empty is no command.
const READS: &str = "table seven = 2 0
compile seven = 9 0
show seven = 0 2
show nothing = 3 1
gas seven = 0 2
gas nothing = 3 1
asm ret = 0 2
run seven five = 0 4
run half five = 10 2
eval half five = 10 2
eval returns five = 12 4
eval seven little = 13 4
eval seven five = 0 4
check empty five nothing = 11 1
check returns five nothing = 9 2
check seven little nothing = 13 4
= 2 0";

#[test]
fn reads_no_file_that_is_not_needed(rt: HostRuntime) -> Result<(), Fail> {
    let alloc = rt.alloc();
    for line in READS.lines() {
        let (command, expected) = line.split_once('=').ok_or("no `=`")?;
        let mut files = MemFiles::new(files(alloc)?, Vec::new(alloc));
        let mut out = QuietSink::new(alloc, 512)?;
        let command = words(alloc, command)?;
        let status = sierra_tool(alloc, &command, &mut files, &mut out, Shelf {});
        let calls = files.calls();
        let told = format!(in alloc; "{status} {calls}")?;
        assert_eq!(rt; told.as_str(), expected.trim(), "{line}");
    }
    Ok(())
}

/// Each file is read by two calls, of which the second finds its end.
#[test]
fn tells_each_read_that_fails(rt: HostRuntime) -> Result<(), Fail> {
    let alloc = rt.alloc();
    let check = words(alloc, "check seven five run")?;
    for (number, name) in ["seven", "seven", "five", "five", "run", "run"]
        .into_iter()
        .enumerate()
    {
        let fails = [number as u64].to_vec(alloc)?;
        let mut files = MemFiles::new(files(alloc)?, fails);
        let mut out = QuietSink::new(alloc, 64)?;
        let status = sierra_tool(alloc, &check, &mut files, &mut out, Shelf {});
        assert_eq!(rt; (status, files.calls()), (4, number as u64 + 1));
        let line = format!(in alloc; "read fault {name}\n")?;
        assert_eq!(rt; out.bytes(), line.as_bytes());
    }
    Ok(())
}

/// Each byte is written by a call, of which one fails, or none.
#[test]
fn tells_each_write_that_fails(rt: HostRuntime) -> Result<(), Fail> {
    let alloc = rt.alloc();
    let check = words(alloc, "check seven five run")?;
    let all = VERDICT.len();
    for number in 0..=all {
        let mut files = QuietFiles::new(files(alloc)?);
        let fails = [number as u64].to_vec(alloc)?;
        let mut out = MemSink::new(alloc, 1, fails, 64)?;
        let status = sierra_tool(alloc, &check, &mut files, &mut out, Shelf {});
        let (want, calls) = if number < all {
            (5, number + 1)
        } else {
            (0, all)
        };
        assert_eq!(rt; (status, out.calls()), (want, calls as u64), "{number}");
        assert_eq!(rt; Some(out.bytes()), VERDICT.get(..number), "{number}");
    }
    Ok(())
}
