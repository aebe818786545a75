//! What holds of every load. The functions do nothing; their contracts are the laws.

ghost use Rattle.std.specs.Prelude.{◌≡◌, ◌≤◌, ℕ, false, None};
ghost use Rattle.boot_plan.specs.ImageFault.{IsImageFault};
ghost use Rattle.kernel_args.specs.Image.{Spells};
ghost use Rattle.demo_load.specs.Events.{load_history};
ghost use Rattle.demo_load.specs.Image.{load_args, load_image};
ghost use Rattle.demo_load.specs.declared.TheConstants.{CLIENT_LIMIT};

/// The image of a load says what it is made for, and has no fault without slots, nor has its plan.
#[tactic(auto, using(crate::proofs::LoadImageLemmas::load_spells, crate::proofs::LoadImageLemmas::load_has_no_fault))]
pub fn load_has_no_fault()
    ensures spells { (clients : ℕ) → clients ≤ CLIENT_LIMIT → Spells (load_image clients) (load_args clients) }
    ensures no_fault { (clients : ℕ) → clients ≤ CLIENT_LIMIT → IsImageFault (load_image clients) None None }
{}

/// Its history doesn't meet the step limit of a call that names none.
#[tactic(auto, using(crate::proofs::LoadHistoryLemmas::load_meets_no_limit))]
pub fn load_meets_no_limit()
    ensures { (clients : ℕ) → clients ≤ CLIENT_LIMIT → (load_history clients).met ≡ false }
{}
