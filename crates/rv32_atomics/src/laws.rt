//! A law of the tables.

ghost use Rattle.std.specs.Prelude.{◌≡◌, ℕ, Some, None};
ghost use Rattle.machine_model.specs.Hart.Atomics.{Atomic, atomic_at};
ghost use Rattle.rv32_words.specs.Reading.{insn_at};

/// No word of the A extension is one of the base table.
#[tactic(auto, using(crate::proofs::TableLemmas::apart))]
pub fn tables_are_apart()
    ensures { (word : ℕ) (atomic : Atomic) → atomic_at word ≡ Some atomic → insn_at word ≡ None }
{}
