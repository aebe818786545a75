//! What earlier blocks named.

use crate::wrong::Wrong;
use std::alloc::{Allocator, Global};

/// Things by their names. A later one hides an earlier one of its name.
#[derive(Debug, Drop)]
pub struct Named<T> {
    entries: Vec<(String, T)>,
}

impl<T> Named<T> {
    fn new(alloc: Global) -> Named<T> {
        Named {
            entries: Vec::new(alloc),
        }
    }

    /// The thing of this name.
    pub fn get(&self, name: &str) -> Result<&T, Wrong> {
        for entry in self.entries.iter().rev() {
            if entry.0.as_str() == name {
                return Ok(&entry.1);
            }
        }
        Err(Wrong::Name)
    }
}

impl<T: Drop> Named<T> {
    /// Names a thing. An error if no memory is left.
    pub fn put(&mut self, alloc: Global, name: &str, thing: T) -> Result<(), Wrong> {
        let name = String::from_str(alloc, name)?;
        self.entries.push((name, thing))?;
        Ok(())
    }
}

/// How many things of each kind a book has.
#[derive(Clone, Copy, Debug)]
pub struct Mark {
    programs: usize,
    texts: usize,
    rows: usize,
}

/// The programs, the byte strings and the tables of rows that were named.
#[derive(Debug, Drop)]
pub struct Book {
    pub programs: Named<Vec<u32>>,
    pub texts: Named<Vec<u8>>,
    pub rows: Named<Vec<String>>,
}

impl Book {
    /// Nothing is named.
    pub fn new(alloc: Global) -> Book {
        Book {
            programs: Named::new(alloc),
            texts: Named::new(alloc),
            rows: Named::new(alloc),
        }
    }

    /// What is named so far.
    pub fn mark(&self) -> Mark {
        Mark {
            programs: self.programs.entries.len(),
            texts: self.texts.entries.len(),
            rows: self.rows.entries.len(),
        }
    }

    /// Forgets what was named after a mark.
    pub fn forget(&mut self, mark: Mark) {
        self.programs.entries.truncate(mark.programs);
        self.texts.entries.truncate(mark.texts);
        self.rows.entries.truncate(mark.rows);
    }
}
