//! The files that a host in memory was asked for.

ghost use Rattle.std.specs.Prelude.{◌≡◌, [], IfOk, Some, option_and_then, slice_get};
ghost use Rattle.std.specs.Option.{option_map};
ghost use Rattle.xk_ports.specs.AskedFiles.{asked_after};
ghost use Rattle.xk_ports.specs.AskedView.{shown};

use crate::host::FileSlot;
use std::alloc::Global;
use std::marker::Model;
use xk_base::NoMemory;

/// A file that was asked for: at which slot, by which name, and whether it was picked.
#[derive(Clone, Copy, Debug, PartialEq, Eq)]
pub struct AskedFile<'a> {
    pub slot: FileSlot,
    /// The name in UTF-8.
    pub name: &'a [u8],
    pub picked: bool,
}

// The name stands among all names from `start` to `end`.
#[derive(Clone, Copy, Debug)]
struct Entry {
    slot: FileSlot,
    picked: bool,
    start: usize,
    end: usize,
}

/// The files that were asked for, while their names with one byte more for each fit in `room`;
/// past that the list is lost.
#[derive(Debug, Drop)]
pub(crate) struct AskedFiles {
    names: Vec<u8>,
    entries: Vec<Entry>,
    room: usize,
    is_lost: bool,
}

impl Model for AskedFiles {
    ghost use Rattle.std.specs.Prelude.{Some, None, if◌then◌else◌, vec_capacity};
    ghost use Rattle.xk_ports.specs.AskedFiles.{AskedState};
    ghost use Rattle.xk_ports.specs.AskedView.{files_in, IsKept};

    ghost Value = { AskedState };

    ghost view = { λ a. record { files = if a.is_lost then None else Some (files_in a.names.items a.entries.items); room = a.room } };

    ghost invariant = { λ a. IsKept a.names.items (vec_capacity a.names) a.entries.items (vec_capacity a.entries) a.room };
}

impl AskedFiles {
    /// No file yet.
    pub(crate) fn new(alloc: Global, room: usize) -> Result<AskedFiles, NoMemory>
        ensures { IfOk result (λ asked. asked ≡ record { files = Some []; room = room }) }
    {
        match (
            Vec::with_capacity(alloc, room),
            Vec::with_capacity(alloc, room),
        ) {
            (Ok(names), Ok(entries)) => Ok(AskedFiles {
                names,
                entries,
                room,
                is_lost: false,
            }),
            _ => Err(NoMemory),
        }
    }

    /// Adds a file, or loses the list where it has no room.
    pub(crate) fn add(&mut self, slot: FileSlot, name: &str, picked: bool)
        ensures { self.new
            ≡ record self.old {
              files = asked_after self.old.room self.old.files
                  (record { slot = slot; name = name.now; picked = picked });
            } }
    {
        let start = self.names.len();
        if self.is_lost || self.room - start - self.entries.len() <= name.len() {
            self.is_lost = true;
            return;
        }
        match self.names.extend_from_slice(name.as_bytes()) {
            Ok(()) => {}
            Err(_) => unreachable!(),
        }
        self.entries.push_reserved(Entry {
            slot,
            picked,
            start,
            end: self.names.len(),
        });
    }

    /// The file at a place of the list, counted from 0.
    pub(crate) fn get(&self, place: usize) -> Option<AskedFile<'_>>
        ensures { option_map shown result ≡ option_and_then (λ files. slice_get files place) self.now.files }
    {
        if self.is_lost {
            return None;
        }
        match self.entries.get(place) {
            Some(entry) => Some(AskedFile {
                slot: entry.slot,
                name: &self.names[entry.start..entry.end],
                picked: entry.picked,
            }),
            None => None,
        }
    }
}
