//! The host: files that are asked for by name and read from their start.

ghost use Rattle.std.specs.Prelude.{◌≡◌, ◌<◌, ◌≤◌, ◌↔◌, ◌∷◌, ◌||◌, [], ℕ, Bool, List, Option, length, take, is_ok, IsTrue, IfOk, OnOk};
ghost use Rattle.std.specs.Prelude.{OnErr};
ghost use Rattle.xk_base.specs.Outside.{Rose};
ghost use Rattle.xk_ports.specs.Told.{Consumes, Grows};
ghost use Rattle.xk_ports.specs.Host.{FileAsked, IsLeftOf, other_slot};

use xk_base::Failed;

/// Where a picked file stands: the host keeps two files at a time.
#[derive(Clone, Copy, Debug, PartialEq, Eq, Hash)]
pub enum FileSlot {
    First,
    Second,
}

/// The files of the outside. A file is picked at a slot by its name, and its bytes are then read
/// from that slot in pieces.
pub trait Host {
    ghost use Rattle.xk_ports.specs.declared.host.FileSlot.{FileSlot};

    /// Where it is told: the bytes that the host has under each name, `None` where it has no file
    /// of that name. No call changes it.
    ghost file: { Self → Option (List ℕ → Option (List ℕ)) };

    /// Whether a file is picked at a slot.
    ghost is_picked: { Self → FileSlot → Bool };

    /// Where it is told: the bytes that are left to be read at a slot.
    ghost left: { Self → FileSlot → Option (List ℕ) };

    /// Where it is told: the files that were asked for, in order.
    ghost asked: { Self → Option (List FileAsked) };

    /// The count of faults.
    ghost faults: { Self → ℕ };

    /// Picks the file of that name at a slot, to be read from its start. On either answer the slot,
    /// the name and whether the file was picked join the list of files asked for.
    fn pick_file(&mut self, which: FileSlot, name: &str) -> Result<(), Failed>
        // A slot keeps a picked file, whatever is asked for later.
        ensures picked { is_picked self.new which ≡ (is_ok result || is_picked self.old which) }
        ensures left { OnOk result (IsLeftOf (file self.old) name.now (left self.new which)) }
        ensures kept { OnErr result (left self.new which ≡ left self.old which) }
        ensures other_picked { is_picked self.new (other_slot which) ≡ is_picked self.old (other_slot which) }
        ensures other_left { left self.new (other_slot which) ≡ left self.old (other_slot which) }

        ensures asked { Grows (asked self.old) (asked self.new) (record { slot = which; name = name.now; picked = is_ok result } ∷ []) }
        ensures file { file self.new ≡ file self.old }
        ensures cause { OnErr result (Rose (faults self.old) (faults self.new)) }
        ensures never_falls { faults self.old ≤ faults self.new };

    /// Takes the next bytes of the file at a slot into the front of `into`, and answers how many:
    /// 0 exactly at the end. A failed read leaves what is left.
    fn read(&mut self, which: FileSlot, into: &mut [u8]) -> Result<usize, Failed>
        requires picked { IsTrue (is_picked self.old which) }
        requires room { 0 < length into.old }
        ensures fits { IfOk result (λ n. n ≤ length into.new) }
        ensures taken { IfOk result (λ n. Consumes (left self.old which) (left self.new which) (take n into.new)) }
        ensures end { IfOk result (λ n. (bytes : List ℕ) → left self.old which ≡ Some bytes → ((n ≡ 0) ↔ (bytes ≡ []))) }
        ensures kept { OnErr result (left self.new which ≡ left self.old which) }
        ensures other_left { left self.new (other_slot which) ≡ left self.old (other_slot which) }

        ensures still_picked { (slot : FileSlot) → is_picked self.new slot ≡ is_picked self.old slot }
        ensures asked { asked self.new ≡ asked self.old }
        ensures file { file self.new ≡ file self.old }
        ensures cause { OnErr result (Rose (faults self.old) (faults self.new)) }
        ensures never_falls { faults self.old ≤ faults self.new };

    /// The count has a greatest value, at which it stays.
    ghost bounded: { (host : Self) → faults host ≤ 18446744073709551615 };
}
