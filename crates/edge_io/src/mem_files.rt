//! Files in memory that fail where a list says so: what comes in is a list of files and the numbers of the calls that
//! fail, what goes out are reads by name. Tests of the layers above read from it.

ghost use Rattle.std.specs.Prelude.{◌≡◌, ℕ, ◌≤◌, ◌++◌, ◌-◌, length, take, drop, map, min, Option, Some, IfOk, IsErrOf, MatchResult, option_copied, string_bytes};
ghost use Rattle.std.specs.List.{find};
ghost use Rattle.std.specs.Option.{option_map};
ghost use Rattle.std.specs.FinMap.{get};
ghost use Rattle.std.specs.Str.{bytes_eq};
ghost use Rattle.edge_io.specs.Counts.{Rose};
ghost use Rattle.edge_io.specs.Files.{Keeps, ForFile, ReadsAt};
ghost use Rattle.edge_io.specs.FileTable.{new_table, table_view, read_answer, read_buffer, counted, file_map};

use crate::files::{FileFault, Files};
use std::marker::Model;

/// A list of files that is read by name, and fails at the calls that a list names. Of two equal names the first counts.
#[derive(Drop)]
pub struct MemFiles {
    files: Vec<(String, Vec<u8>)>,
    fails: Vec<u64>,
    calls: u64,
    faults: u64,
    misses: u64,
}

impl Model for MemFiles {
    ghost use Rattle.std.specs.Prelude.{map, string_bytes};
    ghost use Rattle.edge_io.specs.FileTable.{FileTable};

    ghost Value = { FileTable };

    ghost view = { λ a. record { files = map (λ f. (string_bytes f.0, f.1.items)) a.files.items; fails = a.fails.items; calls = a.calls; faults = a.faults; misses = a.misses } };
}

impl MemFiles {
    /// Files before the first call, which has the number 0. A call whose number is in `fails` fails.
    pub fn new(files: Vec<(String, Vec<u8>)>, fails: Vec<u64>) -> MemFiles
        ensures { result ≡ new_table (map (λ f. (string_bytes f.0, f.1.items)) files.items) fails.items }
    {
        MemFiles {
            files,
            fails,
            calls: 0,
            faults: 0,
            misses: 0,
        }
    }

    /// How many calls there were, which is the number of the next one. It stays at its greatest value.
    pub fn calls(&self) -> u64
        ensures { result ≡ self.now.calls }
    {
        self.calls
    }

    /// How many calls failed.
    pub fn faults(&self) -> u64
        ensures { result ≡ self.now.faults }
    {
        self.faults
    }

    /// How many calls named no file.
    pub fn misses(&self) -> u64
        ensures { result ≡ self.now.misses }
    {
        self.misses
    }

    /// The bytes of the first file of this name.
    fn find(&self, name: &str) -> Option<&[u8]>
        ensures { option_copied result ≡ get (file_map self.now.files) name.now }
    {
        find_file(&self.files, name)
    }

    /// What the next call answers and leaves in the buffer.
    fn answer(&self, name: &str, at: u64, buf: &mut [u8]) -> Result<usize, FileFault>
        ensures answer { result ≡ read_answer self.now name.now at (length buf.old) }
        ensures buffer { buf.new ≡ read_buffer self.now name.now at buf.old }
    {
        let Some(bytes) = self.find(name) else {
            return Err(FileFault::Missing);
        };
        if self.fails.contains(&self.calls) {
            return Err(FileFault::Failed);
        }
        Ok(copy_from(bytes, at, buf))
    }

    /// Counts a call with this answer.
    fn count(&mut self, answer: Result<usize, FileFault>)
        ensures after { self.new ≡ counted self.old answer }
        ensures keeps { Keeps (table_view self.old) (table_view self.new) }
    {
        self.calls = self.calls.saturating_add(1);
        match answer {
            Ok(_) => {}
            Err(FileFault::Missing) => self.misses = self.misses.saturating_add(1),
            Err(FileFault::Failed) => self.faults = self.faults.saturating_add(1),
        }
    }
}

impl Files for MemFiles {
    ghost view = { table_view };

    fn read_at(&mut self, name: &str, at: u64, buf: &mut [u8]) -> Result<usize, FileFault>
        ensures keeps { Keeps (table_view self.old) (table_view self.new) }
        ensures within { IfOk result (λ n. n ≤ length buf.old) }
        ensures known { ForFile (Some (file_map self.old.files)) name.now
            (result ≡ Err FileFault.Missing)
            (λ bytes. MatchResult result (λ n. ReadsAt bytes at buf.new n) (λ e. e ≡ FileFault.Failed)) }
        ensures missing { IsErrOf result FileFault.Missing → Rose self.old.misses self.new.misses }
        ensures failed { IsErrOf result FileFault.Failed → Rose self.old.faults self.new.faults }
        ensures answer { result ≡ read_answer self.old name.now at (length buf.old) }
        ensures buffer { buf.new ≡ read_buffer self.old name.now at buf.old }
        ensures after { self.new ≡ counted self.old result }
    {
        let answer = self.answer(name, at, buf);
        self.count(answer);
        answer
    }
}

/// The bytes of the first file of this name.
fn find_file<'a>(files: &'a [(String, Vec<u8>)], name: &str) -> Option<&'a [u8]>
    ensures { option_copied result ≡ option_map (λ f. f.1.items) (find (λ f. bytes_eq (string_bytes f.0) name.now) files.now) }
{
    files
        .iter()
        .find(|(key, _)| key.as_str() == name)
        .map(|(_, bytes)| bytes.as_slice())
}

/// Copies the bytes from the place `at` on into the buffer's front, and answers how many there were.
fn copy_from(bytes: &[u8], at: u64, buf: &mut [u8]) -> usize
    ensures count { result ≡ min (length buf.old) (length bytes.now - at) }
    ensures front { buf.new ≡ take result (drop at bytes.now) ++ drop result buf.old }
{
    let start = bytes.len().min(at as usize);
    let rest = &bytes[start..];
    let count = rest.len().min(buf.len());
    buf[..count].copy_from_slice(&rest[..count]);
    count
}
