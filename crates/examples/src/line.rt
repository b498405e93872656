//! The lines of a transcript: a line comes in from the session, and what it is goes out.

/// A line, by its beginning.
#[derive(Clone, Copy, Debug, PartialEq, Eq)]
pub enum Line<'a> {
    /// A file begins, with a name and perhaps with parts.
    File(&'a str),
    /// A command, by its words.
    Command(&'a str),
    /// What the rows below do: a command and parts.
    Table(&'a str),
    /// A row, by its text.
    Row(&'a str),
    /// A heading.
    Heading,
    /// A line of a file, or prose.
    Other(&'a str),
}

impl<'a> Line<'a> {
    /// What a line is.
    pub fn of(line: &'a str) -> Line<'a> {
        if let Some(file) = line.strip_prefix("--- ") {
            Line::File(file)
        } else if let Some(words) = line.strip_prefix('$') {
            Line::Command(words)
        } else if let Some(table) = line.strip_prefix("=== ") {
            Line::Table(table)
        } else if let Some(row) = line.strip_prefix('|') {
            Line::Row(row.strip_prefix(' ').unwrap_or(row))
        } else if line.starts_with("# ") {
            Line::Heading
        } else {
            Line::Other(line)
        }
    }
}
