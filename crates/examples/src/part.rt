//! The parts that a file is made of: a word comes in from the session, and what it stands for goes out.

/// A part of a file.
#[derive(Clone, Copy, Debug, PartialEq, Eq)]
pub enum Part<'a> {
    /// The eight bytes of a number.
    Number(u64),
    /// So many times the bytes of a file between two places.
    Bytes {
        /// How often they stand there.
        times: u32,
        /// The name of the file.
        name: &'a str,
        /// The first byte.
        from: usize,
        /// The first byte behind them, or any place behind the end.
        to: usize,
    },
}

impl<'a> Part<'a> {
    /// What a word stands for, if its numbers are numbers.
    pub fn of(word: &'a str) -> Option<Part<'a>> {
        if let Some(digits) = word.strip_prefix('#') {
            return match digits.parse() {
                Ok(number) => Some(Part::Number(number)),
                Err(_) => None,
            };
        }
        let Some((digits, bytes)) = word.split_once('*') else {
            return Part::repeated(1, word);
        };
        match digits.parse() {
            Ok(times) => Part::repeated(times, bytes),
            Err(_) => None,
        }
    }

    /// So many times what a word with a name, or with a name and two places, stands for.
    fn repeated(times: u32, word: &'a str) -> Option<Part<'a>> {
        let Some((name, places)) = word.split_once(':') else {
            return Some(Part::Bytes {
                times,
                name: word,
                from: 0,
                to: usize::MAX,
            });
        };
        let (from, to) = places.split_once(':')?;
        match (from.parse(), to.parse()) {
            (Ok(from), Ok(to)) => Some(Part::Bytes {
                times,
                name,
                from,
                to,
            }),
            _ => None,
        }
    }
}
