//! Pages in memory, in numbered slots, and the preparations that were asked for.

ghost use Rattle.std.specs.Prelude.{◌≡◌, ◌+◌, ◌*◌, ◌<◌, ◌≤◌, ◌++◌, ◌-◌, [], ℕ, Bool, map, length, replicate, vec_len, vec_capacity, OnOk, OnErr, IfOk};
ghost use Rattle.std.specs.Option.{option_copied};
ghost use Rattle.xk_ports.specs.Pages.{no_pages, contents_of, with_preparation, IsPrepared, PutsPage};
ghost use Rattle.xk_ports.specs.PagesView.{shown_preparation, with_bytes_at};
ghost use Rattle.xk_base.specs.declared.limits.TheConstants.{SLOT_LIMIT};

use std::alloc::Global;
use std::marker::Model;
use xk_base::limits::PAGE_SIZE;
use xk_base::{NoMemory, Row, Slot};

/// How many bytes a slot has: those of a page.
const PAGE: usize = PAGE_SIZE as usize;

/// A preparation that was asked for.
#[derive(Debug, Drop)]
pub struct Preparation {
    pub slots: u32,
    /// The name in UTF-8.
    pub name: Option<Row<u8>>,
    /// Whether the answer was Ok; else it was Failed.
    pub prepared: bool,
}

/// Slots of 4096 bytes. The room for all of them is taken when they are made, but a slot's bytes are written only when
/// it, or one behind it, is first used: so many slots that nothing uses cost no time.
#[derive(Debug, Drop)]
pub(crate) struct Pages {
    // Those of the slots up to the last one that was used; all behind it hold zeros.
    bytes: Option<Vec<u8>>,
    slots: u32,
    asked: Option<Row<Preparation>>,
}

impl Model for Pages {
    ghost use Rattle.std.specs.Prelude.{◌≤◌, [], map, unwrap_or};
    ghost use Rattle.xk_ports.specs.Pages.{PagesState};
    ghost use Rattle.xk_ports.specs.PagesView.{shown_preparation, bytes_in, all_bytes, AreKept};
    ghost use Rattle.xk_base.specs.declared.limits.TheConstants.{SLOT_LIMIT};

    ghost Value = { PagesState };

    ghost view = { λ p. record {
      bytes = all_bytes (bytes_in p.bytes) p.slots;
      slots = p.slots;
      asked = map shown_preparation (unwrap_or p.asked []);
    } };

    ghost invariant = { λ p. AreKept p.bytes p.slots × (p.slots ≤ SLOT_LIMIT) };
}

impl Pages {
    /// No slots.
    pub(crate) fn new() -> Pages
        ensures { result ≡ no_pages }
    {
        Pages {
            bytes: None,
            slots: 0,
            asked: None,
        }
    }

    /// How many slots there are.
    pub(crate) fn slots(&self) -> u32
        ensures { result ≡ self.now.slots }
    {
        self.slots
    }

    /// The preparations that were asked for, in order.
    pub(crate) fn preparations(&self) -> &[Preparation]
        ensures { map shown_preparation result.now ≡ self.now.asked }
    {
        match &self.asked {
            Some(asked) => asked.as_slice(),
            None => &[],
        }
    }

    /// Adds to the preparations that were asked for.
    pub(crate) fn note(
        &mut self,
        alloc: Global,
        slots: u32,
        name: Option<&str>,
        prepared: bool,
    ) -> Result<(), NoMemory>
        ensures ok { OnOk result (self.new ≡ with_preparation self.old slots (option_copied name.entry) prepared) }
        ensures err { OnErr result (self.new ≡ self.old) }
    {
        let name = copied(alloc, name)?;
        let entry = Preparation {
            slots,
            name,
            prepared,
        };
        match &mut self.asked {
            Some(asked) => asked.push(entry),
            None => {
                let mut asked = Row::new(alloc);
                asked.push(entry)?;
                self.asked = Some(asked);
                Ok(())
            }
        }
    }

    /// Makes slots of zeros, in place of those that were there.
    pub(crate) fn prepare(
        &mut self,
        alloc: Global,
        slots: u32,
        name: Option<&str>,
    ) -> Result<(), NoMemory>
        requires { slots ≤ SLOT_LIMIT }
        ensures ok { OnOk result (IsPrepared self.old self.new slots (option_copied name.entry)) }
        ensures err { OnErr result (self.new ≡ self.old) }
    {
        let Ok(bytes) = Vec::with_capacity(alloc, slots as usize * PAGE) else {
            return Err(NoMemory);
        };
        self.note(alloc, slots, name, true)?;
        self.bytes = Some(bytes);
        self.slots = slots;
        Ok(())
    }

    /// Puts a page into a slot.
    pub(crate) fn put(&mut self, s: Slot, page: &[u8])
        requires slot { s.0 < self.old.slots }
        requires whole { length page.now ≡ 4096 }
        ensures { PutsPage self.old self.new s.0 page.now }
    {
        match &mut self.bytes {
            Some(bytes) => {
                let start = s.0 as usize * PAGE;
                fill_up_to(bytes, start + PAGE);
                write_at(bytes, start, page);
            }
            None => unreachable!(),
        }
    }

    /// Copies the page of a slot.
    pub(crate) fn get(&self, s: Slot, into: &mut [u8])
        requires slot { s.0 < self.now.slots }
        requires whole { length into.old ≡ 4096 }
        ensures { into.new ≡ contents_of self.now.bytes s.0 }
    {
        let start = s.0 as usize * PAGE;
        match &self.bytes {
            Some(bytes) if start < bytes.len() => {
                into.copy_from_slice(&bytes[start..start + PAGE]);
            }
            _ => into.fill(0),
        }
    }
}

// A text's bytes in memory of their own.
fn copied(alloc: Global, name: Option<&str>) -> Result<Option<Row<u8>>, NoMemory>
    ensures { IfOk result (λ copy. copy ≡ option_copied name.entry) }
{
    match name {
        Some(name) => {
            let mut copy = Row::new(alloc);
            copy.extend_from_slice(name.as_bytes())?;
            Ok(Some(copy))
        }
        None => Ok(None),
    }
}

// Where there are fewer bytes, zeros are added. There is room for them.
fn fill_up_to(bytes: &mut Vec<u8>, count: usize)
    requires { count ≤ vec_capacity bytes.old }
    ensures items { bytes.new.items ≡ bytes.old.items ++ replicate (count - length bytes.old.items) 0 }
    ensures capacity { vec_capacity bytes.old ≤ vec_capacity bytes.new }
{
    if bytes.len() < count
        && let Err(_) = bytes.resize(count, 0)
    {
        unreachable!()
    }
}

// Puts a page over the bytes from a place on.
fn write_at(bytes: &mut Vec<u8>, start: usize, page: &[u8])
    requires within { start + 4096 ≤ vec_len bytes.old }
    requires whole { length page.now ≡ 4096 }
    ensures items { bytes.new.items ≡ with_bytes_at bytes.old.items start page.now }
    ensures capacity { vec_capacity bytes.new ≡ vec_capacity bytes.old }
{
    bytes[start..start + PAGE].copy_from_slice(page);
}
