//! Files and sinks: those in memory, those that never fail, and those of the system.

use edge_io::{
    Failed, FileFault, Files, MemFiles, MemSink, QuietFiles, QuietSink, ReadFault, StdFiles,
    StdSink, read_all, write_all,
};
use std::alloc::{AllocError, Global};
use std::test::Fail;
use std::{env, fs, process};

/// A file, of two of one name.
fn files(alloc: Global) -> Result<Vec<(String, Vec<u8>)>, AllocError> {
    let mut files = Vec::new(alloc);
    files.push((String::from_str(alloc, "name")?, b"text".to_vec(alloc)?))?;
    files.push((String::from_str(alloc, "name")?, b"other".to_vec(alloc)?))?;
    Ok(files)
}

#[test]
fn in_memory(rt: HostRuntime) -> Result<(), Fail> {
    let alloc = rt.alloc();
    let mut from = MemFiles::new(files(alloc)?, vec![in alloc; 2]?);
    let whole = read_all(alloc, &mut from, "name", 4)?;
    assert_eq!(rt; whole.as_slice(), b"text".as_slice());
    let failed = read_all(alloc, &mut from, "name", 4).err();
    assert_eq!(rt; failed, Some(ReadFault::Failed));
    let missing = read_all(alloc, &mut from, "nam", 4).err();
    assert_eq!(rt; missing, Some(ReadFault::Missing));
    assert_eq!(rt; (from.faults(), from.misses()), (1, 1));
    let mut sink = MemSink::new(alloc, 2, vec![in alloc; 4]?, 5)?;
    assert_eq!(rt; write_all(&mut sink, b"hello"), Ok(()));
    assert_eq!(rt; sink.bytes(), b"hello".as_slice());
    assert_eq!(rt; write_all(&mut sink, b"more"), Err(Failed));
    assert_eq!(rt; sink.faults(), 1);
    Ok(())
}

#[test]
fn never_fails_where_it_is_quiet(rt: HostRuntime) -> Result<(), Fail> {
    let alloc = rt.alloc();
    let mut from = QuietFiles::new(files(alloc)?);
    let long = read_all(alloc, &mut from, "name", 3).err();
    assert_eq!(rt; long, Some(ReadFault::TooLong));
    let mut sink = QuietSink::new(alloc, 3)?;
    assert_eq!(rt; write_all(&mut sink, b"hello"), Ok(()));
    assert_eq!(rt; sink.bytes(), b"hel".as_slice());
    Ok(())
}

#[test]
fn reads_the_systems_files(rt: HostRuntime) -> Result<(), Fail> {
    let alloc = rt.alloc();
    let folder = env::temp_dir(&rt)?;
    let folder = folder.as_str();
    let id = process::id(rt.process());
    let path = format!(in alloc; "{folder}/base_tests-{id}")?;
    let inside = format!(in alloc; "{path}/file")?;
    let mut text = Vec::new(alloc);
    for at in 0..150_000u32 {
        text.push((at % 251) as u8)?;
    }
    fs::write(&rt, path.as_str(), text.as_slice())?;
    let mut from = StdFiles::new(&rt);
    let whole = read_all(alloc, &mut from, path.as_str(), 150_000);
    let mut piece = [0; 4];
    let middle = from.read_at(path.as_str(), 70_000, &mut piece);
    let mut other = [0; 4];
    let early = from.read_at(path.as_str(), 10, &mut other);
    let mut last = [0; 4];
    let late = from.read_at(path.as_str(), 149_998, &mut last);
    let through = from.read_at(inside.as_str(), 0, &mut piece);
    fs::remove_file(&rt, path.as_str())?;
    assert!(rt; whole.is_ok_and(|whole| whole.as_slice() == text.as_slice()));
    assert_eq!(rt; middle, Ok(4));
    assert_eq!(rt; Some(piece.as_slice()), text.get(70_000..70_004));
    assert_eq!(rt; early, Ok(4));
    assert_eq!(rt; Some(other.as_slice()), text.get(10..14));
    assert_eq!(rt; late, Ok(2));
    assert_eq!(rt; last.get(..2), text.get(149_998..));
    assert_eq!(rt; (through, from.misses()), (Err(FileFault::Missing), 1));
    assert_eq!(rt;
        from.read_at(path.as_str(), 0, &mut piece),
        Err(FileFault::Missing)
    );
    assert_eq!(rt; (from.faults(), from.misses()), (0, 2));
    assert_eq!(rt; from.read_at(folder, 0, &mut piece), Err(FileFault::Failed));
    assert_eq!(rt; (from.faults(), from.misses()), (1, 2));
    Ok(())
}

#[test]
fn writes_to_the_system(rt: HostRuntime) {
    let mut sink = StdSink::new(rt.stdout());
    assert_eq!(rt; write_all(&mut sink, b"a line\n"), Ok(()));
    assert_eq!(rt; sink.faults(), 0);
    let mut room = [0; 3];
    let mut sink = StdSink::new(room.as_mut_slice());
    assert_eq!(rt; write_all(&mut sink, b"hello"), Err(Failed));
    assert_eq!(rt; sink.faults(), 1);
    assert_eq!(rt; room, *b"hel");
}
