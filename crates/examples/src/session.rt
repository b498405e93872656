//! The work on a transcript: lines come in from main, and the page with the answers goes out.

use crate::line::Line;
use crate::part::Part;
use crate::texts::Texts;
use edge_io::{Files, ReadFault, StdSink, read_all};
use sierra_tool::{Shelf, sierra_tool};
use std::alloc::{AllocError, Global};

/// The status of a call of the tool that ran out of memory.
const OUT_OF_MEMORY: u8 = 6;

/// How many bytes a file has at most of which another is made.
const LONGEST_PART: u64 = 1 << 30;

/// What a transcript has come to so far.
#[derive(Drop)]
pub struct Session<F: Files> {
    alloc: Global,
    texts: Texts<F>,
    /// Whether the file that was added last takes further lines.
    is_open: bool,
    /// The command and the parts of the rows.
    table: String,
    page: Vec<u8>,
}

impl<F: Files> Session<F> {
    /// The session before the first line, over these files.
    pub fn new(alloc: Global, others: F) -> Session<F> {
        Session {
            alloc,
            texts: Texts::new(alloc, others),
            is_open: false,
            table: String::new(alloc),
            page: Vec::new(alloc),
        }
    }

    /// The lines so far with their answers.
    pub fn page(&self) -> &[u8] {
        &self.page
    }

    /// Does what a line says, and writes it down with its answer.
    pub fn take(&mut self, line: &str) -> Result<(), AllocError> {
        self.write(line.as_bytes())?;
        self.write(b"\n")?;
        match Line::of(line) {
            Line::File(file) => self.begin(file),
            Line::Command(words) => self.call(words),
            Line::Table(table) => self.set_table(table),
            Line::Row(text) => self.row(text),
            Line::Heading => {
                self.is_open = false;
                Ok(())
            }
            Line::Other(_) if self.is_open => self.texts.extend(line),
            Line::Other(_) => Ok(()),
        }
    }

    /// Adds to the page.
    fn write(&mut self, bytes: &[u8]) -> Result<(), AllocError> {
        self.page.extend_from_slice(bytes)
    }

    /// Begins a file: `NAME` or `NAME < PART ..`.
    fn begin(&mut self, file: &str) -> Result<(), AllocError> {
        let (name, parts) = file.split_once('<').unwrap_or((file, ""));
        let bytes = self.joined(parts)?;
        self.texts.add(name.trim(), bytes)?;
        self.is_open = true;
        Ok(())
    }

    /// Begins a table.
    fn set_table(&mut self, table: &str) -> Result<(), AllocError> {
        self.is_open = false;
        self.table = String::from_str(self.alloc, table)?;
        Ok(())
    }

    /// Calls the table's command with the file that the table's parts make with this row, and with the row's input if it has
    /// one.
    fn row(&mut self, text: &str) -> Result<(), AllocError> {
        self.is_open = false;
        let (row, input) = match text.split_once(" <- ") {
            Some((row, input)) => (row, Some(input)),
            None => (text, None),
        };
        self.texts.add("row", row.as_bytes().to_vec(self.alloc)?)?;
        let table = self.table.clone()?;
        let (command, parts) = table.split_once(' ').unwrap_or((table.as_str(), ""));
        let program = self.joined(parts)?;
        self.texts.add("program", program)?;
        let words = match input {
            Some(input) => {
                self.texts.add("input", lines(self.alloc, input)?)?;
                format!(in self.alloc; "{command} program input")?
            }
            None => format!(in self.alloc; "{command} program")?,
        };
        self.call(words.as_str())
    }

    /// Calls the tool with words, behind which the name of a file for its output may stand.
    fn call(&mut self, words: &str) -> Result<(), AllocError> {
        self.is_open = false;
        let (words, kept) = match words.split_once(" > ") {
            Some((words, name)) => (words, Some(name.trim())),
            None => (words, None),
        };
        let arguments = owned(self.alloc, words)?;
        let written = self.answer(&arguments)?;
        match kept {
            Some(name) => self.texts.add(name, written),
            None => Ok(()),
        }
    }

    /// What the tool writes, which goes to the page with the status.
    fn answer(&mut self, arguments: &[String]) -> Result<Vec<u8>, AllocError> {
        let mut written = Vec::new(self.alloc);
        let mut out = StdSink::new(&mut written);
        let status = sierra_tool(self.alloc, arguments, &mut self.texts, &mut out, Shelf {});
        if status == OUT_OF_MEMORY || out.faults() > 0 {
            return Err(AllocError);
        }
        self.show(&written)?;
        if status > 0 {
            let line = format!(in self.alloc; "status {status}\n")?;
            self.write(line.as_bytes())?;
        }
        Ok(written)
    }

    /// Adds to the page what the tool wrote, or its size where that is no text.
    fn show(&mut self, written: &[u8]) -> Result<(), AllocError> {
        if written.iter().all(is_of_text) {
            return self.write(written);
        }
        let size = written.len();
        let line = format!(in self.alloc; "{size} bytes\n")?;
        self.write(line.as_bytes())
    }

    /// The bytes of parts, one after another.
    fn joined(&mut self, parts: &str) -> Result<Vec<u8>, AllocError> {
        let mut whole = Vec::new(self.alloc);
        for word in parts.split_whitespace() {
            if !self.push_part(&mut whole, word)? {
                let line = format!(in self.alloc; "missing {word}\n")?;
                self.write(line.as_bytes())?;
            }
        }
        Ok(whole)
    }

    /// Adds the bytes of a part, and answers whether there is such a part.
    fn push_part(&mut self, whole: &mut Vec<u8>, word: &str) -> Result<bool, AllocError> {
        match Part::of(word) {
            Some(Part::Number(number)) => {
                whole.extend_from_slice(&number.to_le_bytes())?;
                Ok(true)
            }
            Some(
                Part::Bytes {
                    times,
                    name,
                    from,
                    to,
                },
            ) => match read_all(self.alloc, &mut self.texts, name, LONGEST_PART) {
                Ok(bytes) => {
                    push_times(whole, cut(&bytes, from, to), times)?;
                    Ok(true)
                }
                Err(ReadFault::Memory) => Err(AllocError),
                Err(_) => Ok(false),
            },
            None => Ok(false),
        }
    }
}

/// Whether a byte is one of a text: it can be printed, or ends a line.
fn is_of_text(byte: &u8) -> bool {
    matches!(*byte, b'\n' | b' '..=b'~')
}

/// The bytes between two places, as far as there are bytes.
fn cut(bytes: &[u8], from: usize, to: usize) -> &[u8] {
    let to = to.min(bytes.len());
    let from = from.min(to);
    &bytes[from..to]
}

/// Adds bytes so many times.
fn push_times(whole: &mut Vec<u8>, bytes: &[u8], times: u32) -> Result<(), AllocError> {
    for _ in 0..times {
        whole.extend_from_slice(bytes)?;
    }
    Ok(())
}

/// The words of a text.
fn owned(alloc: Global, text: &str) -> Result<Vec<String>, AllocError> {
    let mut words = Vec::new(alloc);
    for word in text.split_whitespace() {
        words.push(String::from_str(alloc, word)?)?;
    }
    Ok(words)
}

/// The lines of a text in which `/` stands for the end of a line.
fn lines(alloc: Global, text: &str) -> Result<Vec<u8>, AllocError> {
    let mut bytes = Vec::with_capacity(alloc, text.len())?;
    for byte in text.as_bytes() {
        bytes.push(if *byte == b'/' { b'\n' } else { *byte })?;
    }
    Ok(bytes)
}
