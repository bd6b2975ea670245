// What is wrong with a line.

use std::alloc::{AllocError, AllocFailed};
use std::error::Error;
use std::fmt;

#[derive(Clone, Copy, PartialEq, Eq, Debug)]
pub enum Bad {
    NotText,
    UnknownCommand,
    WordMissing,
    WordLeft,
    NotNumber,
    TooLarge,
    NotName,
    NoRow,
    SameRow,
    RowTooLong,
    OutOfMemory,
}

impl fmt::Display for Bad {
    fn fmt<W: fmt::Write>(&self, f: &mut fmt::Formatter<W>) -> fmt::Result {
        let text = match self {
            Bad::NotText => "no text",
            Bad::UnknownCommand => "no such command",
            Bad::WordMissing => "a word is missing",
            Bad::WordLeft => "a word too many",
            Bad::NotNumber => "not a number",
            Bad::TooLarge => "a number that is too large",
            Bad::NotName => "not a name",
            Bad::NoRow => "no such row",
            Bad::SameRow => "one row twice",
            Bad::RowTooLong => "a row that is too long",
            Bad::OutOfMemory => "out of memory",
        };
        f.write_str(text)
    }
}

impl Error for Bad {}

impl From<AllocError> for Bad {
    fn from(_: AllocError) -> Self {
        Bad::OutOfMemory
    }
}

impl<T: Drop> From<AllocFailed<T>> for Bad {
    fn from(_failed: AllocFailed<T>) -> Self {
        Bad::OutOfMemory
    }
}
