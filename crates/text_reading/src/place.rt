//! The line and the column of a byte, which a refusal names. They are computed once, from the bytes before it.

ghost use Rattle.std.specs.Prelude.{◌≡◌, ◌≤◌, ◌==◌, not, length, reverse, count_by};
ghost use Rattle.std.specs.List.{take_while};
ghost use Rattle.text_reading.specs.Places.{line_behind, column_behind};

/// A place in a text. Lines and columns count from 1, columns in bytes; a line ends with its LF.
#[derive(Clone, Copy, Debug, PartialEq, Eq)]
pub struct Place {
    /// The line.
    pub line: u64,
    /// The column, in bytes.
    pub column: u64,
}

impl Place {
    /// The place of the byte behind these bytes.
    pub fn behind(bytes: &[u8]) -> Place
        ensures line { result.line ≡ line_behind bytes.now }
        ensures column { result.column ≡ column_behind bytes.now }
    {
        Place {
            line: line_ends(bytes) as u64 + 1,
            column: last_line(bytes) as u64 + 1,
        }
    }
}

/// How many lines end in these bytes.
fn line_ends(bytes: &[u8]) -> usize
    ensures count { result ≡ count_by (λ byte. byte == 10) bytes.now }
    ensures bound { result ≤ length bytes.now }
{
    bytes.iter().filter(|byte| **byte == b'\n').count()
}

/// How many bytes are behind the last line end.
fn last_line(bytes: &[u8]) -> usize
    ensures count { result ≡ length (take_while (λ byte. not (byte == 10)) (reverse bytes.now)) }
    ensures bound { result ≤ length bytes.now }
{
    bytes
        .iter()
        .rev()
        .take_while(|byte| **byte != b'\n')
        .count()
}
