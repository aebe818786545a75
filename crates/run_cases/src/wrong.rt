//! What can be wrong with a line of a case file.

use std::alloc::{AllocError, AllocFailed};
use thiserror::Error;
use xk_base::NoMemory;

/// Why a line can't be taken.
#[derive(Clone, Copy, Debug, PartialEq, Eq, Error)]
pub enum Wrong {
    #[error("there is no such keyword here")]
    Keyword,
    #[error("a number is missing or misspelled")]
    Number,
    #[error("a text in quotes is missing or misspelled")]
    Text,
    #[error("these are no hexadecimal digits")]
    Hex,
    #[error("nothing has this name")]
    Name,
    #[error("this place is outside of the bytes")]
    Place,
    #[error("there is no image of such processes")]
    Machine,
    #[error("a line is indented by 0, 2 or 4 spaces, below one with fewer")]
    Indent,
    #[error("the case says nothing of its output")]
    Output,
    #[error("the row has no such field")]
    Field,
    #[error("there is no memory")]
    Memory,
}

impl From<AllocError> for Wrong {
    fn from(_: AllocError) -> Wrong {
        Wrong::Memory
    }
}

impl<T: Drop> From<AllocFailed<T>> for Wrong {
    fn from(_: AllocFailed<T>) -> Wrong {
        Wrong::Memory
    }
}

impl From<NoMemory> for Wrong {
    fn from(_: NoMemory) -> Wrong {
        Wrong::Memory
    }
}

/// A line that can't be taken.
#[derive(Clone, Copy, Debug, PartialEq, Eq, Error)]
#[error("line {line}: {wrong}")]
pub struct BadLine {
    /// The number of the line, counted from 1.
    pub line: u32,
    pub wrong: Wrong,
}

impl Wrong {
    /// The same of a line.
    pub fn at(self, line: u32) -> BadLine {
        BadLine { line, wrong: self }
    }
}
