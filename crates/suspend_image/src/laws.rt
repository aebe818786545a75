//! What holds of every list of bytes.

ghost use Rattle.std.specs.Prelude.{◌≡◌, ℕ, ◌<◌, ◌≤◌, List, [], ◌++◌, drop, length, None, Ok, slice_index};
ghost use Rattle.kernel_args.specs.declared.faults.ArgFault.{ArgFault};
ghost use Rattle.machine_model.specs.Runs.Matched.{Matched};
ghost use Rattle.machine_model.specs.State.Machine.{Machine};
ghost use Rattle.snapshot_rows.specs.declared.state.State.{State};
ghost use Rattle.suspend_image.specs.Forms.{Spells};
ghost use Rattle.suspend_image.specs.StateFaults.{state_of, state_fault};
ghost use Rattle.snapshot_rows.specs.Machines.{machine_of};
ghost use Rattle.suspend_image.specs.FileFaults.{IsFirstFault};
ghost use Rattle.suspend_image.specs.Saveable.{HasSizes, IsSpellable, SpellsMachine};
ghost use Rattle.suspend_image.specs.Saving.{FitsSheet, IsSaving};
ghost use Rattle.suspend_image.specs.Sheets.{SheetBytes, HasRoom, room_for, with_bytes, appended, begun};
ghost use Rattle.suspend_image.specs.Spelling.{with_header};
ghost use Rattle.suspend_image.specs.StateBytes.{saved_parts, saved_bytes};

/// Bytes spell exactly one state, or they have a fault, and never both; reading finds the state that
/// they spell. The function does nothing; its contract is the law.
pub fn spelled_once_or_faulty()
    ensures spelled { (file : List ℕ) → ((i : ℕ) → slice_index file i < 256) → state_fault file ≡ None
        → (state : State) × Spells file state }
    ensures once { (file : List ℕ) (one other : State) → Spells file one → Spells file other → one ≡ other }
    ensures never_both { (file : List ℕ) (state : State) → Spells file state → state_fault file ≡ None }
    ensures read { (file : List ℕ) (state : State) → Spells file state → state_of file ≡ Ok state }
{}

/// No file has two first faults, and none has one that spells a state in which the machine can be.
/// The function does nothing; its contract is the law.
pub fn matched_or_faulty()
    ensures once { (file : List ℕ) (one other : ArgFault) → IsFirstFault file one → IsFirstFault file other → one ≡ other }
    ensures never_both { (file : List ℕ) (state : State) (fault : ArgFault) → Spells file state → Matched (machine_of file state)
        → IsFirstFault file fault → ⊥ }
{}

/// The bytes that spell a state of the machine fit into a sheet that was made for its processes and its
/// capacity. The function does nothing; its contract is the law.
pub fn saved_state_fits()
    ensures { (m : Machine) → Matched m → HasSizes m → length (saved_bytes m) ≤ room_for m.processes m.capacity }
{}

/// The bytes that spell a state of the machine are read as that state, and spell no other. The function
/// does nothing; its contract is the law.
pub fn saved_state_is_spelled()
    ensures spelled { (m : Machine) → IsSpellable m → SpellsMachine (saved_bytes m) m }
    ensures once { (m other : Machine) → IsSpellable m → IsSpellable other → saved_bytes m ≡ saved_bytes other → m ≡ other }
{}

/// A file that spells a state in which the machine can be is the bytes that spell that machine: each
/// state has one spelling. The function does nothing; its contract is the law.
pub fn spelled_file_is_saved()
    ensures { (file : List ℕ) (state : State) → Spells file state → Matched (machine_of file state)
        → saved_bytes (machine_of file state) ≡ file }
{}

/// A state of the machine is written piece by piece: the pieces in their order have room, and together
/// they are its bytes. The function does nothing; its contract is the law.
pub fn saved_piece_by_piece()
    ensures begun { (m : Machine) (sheet : SheetBytes) → FitsSheet m sheet → IsSaving m (saved_parts m) (with_bytes (begun []) sheet) }
    ensures room { (m : Machine) (piece rest : List ℕ) (sheet : SheetBytes) → IsSaving m (piece ++ rest) sheet → HasRoom sheet piece }
    ensures next { (m : Machine) (piece rest : List ℕ) (sheet : SheetBytes) → IsSaving m (piece ++ rest) sheet
        → IsSaving m rest (appended piece sheet) }
    ensures end { (m : Machine) (sheet : SheetBytes) → IsSaving m [] sheet → with_header (drop 16 sheet.bytes) ≡ saved_bytes m }
{}
