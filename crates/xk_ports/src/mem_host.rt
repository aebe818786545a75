//! A host in memory, with calls that are to fail.

ghost use Rattle.std.specs.Prelude.{◌≡◌, ◌<◌, ◌≤◌, ◌↔◌, ◌-◌, ◌++◌, [], ℕ, map, length, take, drop, min, is_err, is_some, true, false};
ghost use Rattle.std.specs.Prelude.{IsTrue, MatchOption, IfOk, OnOk, OnErr, option_and_then, slice_get, if◌then◌else◌};
ghost use Rattle.std.specs.Option.{option_map};
ghost use Rattle.xk_ports.specs.AskedView.{shown};
ghost use Rattle.xk_ports.specs.Calls.{no_calls, is_next_to_fail, called, failed};
ghost use Rattle.xk_ports.specs.MemHost.{file_named, is_first, left_at, bytes_left, with_left, with_asked, is_pick_to_fail};
ghost use Rattle.xk_ports.specs.MemHostView.{plain_files, bytes_at};
ghost use Rattle.xk_ports.specs.Told.{Consumes};

use crate::asked_files::{AskedFile, AskedFiles};
use crate::calls::Calls;
use crate::host::{FileSlot, Host};
use std::alloc::Global;
use std::marker::Model;
use xk_base::{Failed, NoMemory};

// A file by its place, and how many of its bytes were read.
#[derive(Clone, Copy, Debug)]
struct Reading {
    file: usize,
    at: usize,
}

// The files that are being read, at each slot where one is picked.
#[derive(Clone, Copy, Debug)]
struct Readings {
    first: Option<Reading>,
    second: Option<Reading>,
}

impl Readings {
    fn get(&self, which: FileSlot) -> Option<Reading>
        ensures { result ≡ (if is_first which then self.now.first else self.now.second) }
    {
        match which {
            FileSlot::First => self.first,
            FileSlot::Second => self.second,
        }
    }

    fn set(&mut self, which: FileSlot, reading: Reading)
        ensures { self.new ≡ record {
          first = if is_first which then Some reading else self.old.first;
          second = if is_first which
              then self.old.second else Some reading;
        } }
    {
        match which {
            FileSlot::First => self.first = Some(reading),
            FileSlot::Second => self.second = Some(reading),
        }
    }
}

/// A host that has the files it is given, and tells all of them.
#[derive(Debug, Drop)]
pub struct MemHost {
    files: Vec<(String, Vec<u8>)>,
    readings: Readings,
    piece: usize,
    asked: AskedFiles,
    calls: Calls,
}

impl Model for MemHost {
    ghost use Rattle.std.specs.Prelude.{◌≤◌};
    ghost use Rattle.xk_ports.specs.MemHost.{MemHostState};
    ghost use Rattle.xk_ports.specs.MemHostView.{plain_files, left_in, IsReadingOf};

    ghost Value = { MemHostState };

    ghost view = { λ h. let files = plain_files h.files.items in
        record {
          files = files;
          first = left_in files h.readings.first;
          second = left_in files h.readings.second;
          piece = h.piece;
          asked = h.asked;
          calls = h.calls;
        } };

    ghost invariant = { λ h. let files = plain_files h.files.items in
        IsReadingOf files h.readings.first × IsReadingOf files h.readings.second
        × (1 ≤ h.piece) };
}

impl MemHost {
    /// A host of these files, each a name and its bytes; the first of two with one name counts.
    /// A read gives at most `piece` bytes. The calls of `pick_file` and `read` whose numbers `fails`
    /// lists are to fail, counting from 1. The list of files asked for is kept while their names,
    /// with one byte more for each, have at most `room` bytes; past that it isn't told.
    pub fn new(
        alloc: Global,
        files: Vec<(String, Vec<u8>)>,
        piece: usize,
        fails: Vec<u64>,
        room: usize,
    ) -> Result<MemHost, NoMemory>
        requires { 1 ≤ piece }
        ensures { IfOk result
            (λ host. host
            ≡ record {
              files = plain_files files.items;
              first = None;
              second = None;
              piece = piece;
              asked = record { files = Some []; room = room };
              calls = no_calls fails.items;
            }) }
    {
        let asked = AskedFiles::new(alloc, room)?;
        Ok(MemHost {
            files,
            readings: Readings {
                first: None,
                second: None,
            },
            piece,
            asked,
            calls: Calls::new(fails),
        })
    }

    /// The file at a place of the list of files asked for, counted from 0: `None` past its end, and
    /// where the list isn't told.
    pub fn asked_at(&self, place: usize) -> Option<AskedFile<'_>>
        ensures { option_map shown result ≡ option_and_then (λ files. slice_get files place) self.now.asked.files }
    {
        self.asked.get(place)
    }
}

// The place of the first file of that name.
fn place_of(files: &[(String, Vec<u8>)], name: &str) -> Option<usize>
    ensures { MatchOption result (file_named (plain_files files.now) name.now ≡ None)
        (λ place. (place < length files.now)
        × (file_named (plain_files files.now) name.now ≡ Some (bytes_at (plain_files files.now) place))) }
{
    for (place, file) in files.iter().enumerate() {
        if file.0.as_str() == name {
            return Some(place);
        }
    }
    None
}

// The bytes of the file at a place.
fn bytes_of(files: &[(String, Vec<u8>)], place: usize) -> &[u8]
    requires { place < length files.now }
    ensures { result.now ≡ bytes_at (plain_files files.now) place }
{
    files[place].1.as_slice()
}

// Copies what fits of the bytes from `at` on, and at most `piece`; answers how many.
fn take_piece(bytes: &[u8], at: usize, piece: usize, into: &mut [u8]) -> usize
    requires { at ≤ length bytes.now }
    ensures count { result ≡ min (min (length bytes.now - at) (length into.old)) piece }
    ensures taken { into.new ≡ take result (drop at bytes.now) ++ drop result into.old }
{
    let count = (bytes.len() - at).min(into.len()).min(piece);
    into[..count].copy_from_slice(&bytes[at..at + count]);
    count
}

impl Host for MemHost {
    ghost use Rattle.std.specs.Prelude.{Some, is_some};
    ghost use Rattle.std.proofs.Common.{arith};
    ghost use Rattle.xk_ports.specs.Calls.{faults_of};
    ghost use Rattle.xk_ports.specs.MemHost.{file_named, left_at};

    ghost file = { λ h. Some (file_named h.files) };

    ghost is_picked = { λ h slot. is_some (left_at h slot) };

    ghost left = { left_at };

    ghost asked = { λ h. h.asked.files };

    ghost faults = { λ h. faults_of h.calls };

    ghost bounded = { λ h. Prim.omega arith };

    /// Fails exactly where its number is listed or there is no file of that name.
    fn pick_file(&mut self, which: FileSlot, name: &str) -> Result<(), Failed>
        ensures fails { is_err result ≡ is_pick_to_fail self.old name.now }
        ensures ok { OnOk result
            (self.new ≡ record (with_asked (with_left self.old which (file_named self.old.files name.now)) which name.now true) {
              calls = called self.old.calls;
            }) }
        ensures err { OnErr result (self.new ≡ record (with_asked self.old which name.now false) { calls = failed self.old.calls }) }
    {
        let is_to_fail = self.calls.count();
        match place_of(&self.files, name) {
            Some(file) if !is_to_fail => {
                self.asked.add(which, name, true);
                self.readings.set(which, Reading { file, at: 0 });
                Ok(())
            }
            _ => {
                self.asked.add(which, name, false);
                self.calls.fault();
                Err(Failed)
            }
        }
    }

    /// Fails exactly where its number is listed; else it gives what is left, what fits in `into` or
    /// the piece, whichever is least.
    fn read(&mut self, which: FileSlot, into: &mut [u8]) -> Result<usize, Failed>
        requires picked { IsTrue (is_some (left_at self.old which)) }
        requires room { 0 < length into.old }
        ensures fails { is_err result ≡ is_next_to_fail self.old.calls }
        ensures count { IfOk result (λ n. n ≡ min (min (length (bytes_left self.old which)) (length into.old)) self.old.piece) }
        ensures bytes { IfOk result (λ n. into.new ≡ take n (bytes_left self.old which) ++ drop n into.old) }
        ensures taken { IfOk result (λ n. Consumes (left_at self.old which) (left_at self.new which) (take n into.new)) }
        ensures end { IfOk result (λ n. (n ≡ 0) ↔ (bytes_left self.old which ≡ [])) }
        ensures ok { IfOk result
            (λ n. self.new
            ≡ record (with_left self.old which (Some (drop n (bytes_left self.old which)))) { calls = called self.old.calls }) }
        ensures err { OnErr result (self.new ≡ record self.old { calls = failed self.old.calls }) }
    {
        if self.calls.count() {
            self.calls.fault();
            return Err(Failed);
        }
        match self.readings.get(which) {
            Some(Reading { file, at }) => {
                let count = take_piece(bytes_of(&self.files, file), at, self.piece, into);
                let at = at + count;
                self.readings.set(which, Reading { file, at });
                Ok(count)
            }
            None => unreachable!(),
        }
    }
}
