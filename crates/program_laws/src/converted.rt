//! A converted image plays alike. The function does nothing; its contract is the law.

ghost use Rattle.std.specs.Prelude.{◌≡◌, ◌≤◌, ℕ, List, Option, length};
ghost use Rattle.kernel_args.specs.declared.args.Args.{Args};
ghost use Rattle.kernel_args.specs.Converting.{converted};
ghost use Rattle.kernel_args.specs.Image.{Spells};
ghost use Rattle.machine_model.specs.State.Machine.{Machine};
ghost use Rattle.xk_base.specs.declared.limits.TheConstants.{IMAGE_LIMIT};
ghost use Rattle.xous_program.specs.Outcome.Images.{Boots};

/// Whatever machine an image of version 1 boots, for whatever slots that are asked for, the image that it
/// is converted into has no fault and boots that machine too: so both play alike.
#[tactic(auto, using(crate::proofs::Images::ConvertedBootLemmas::converted_boots))]
pub fn converted_image_boots_the_same()
    ensures { (image : List ℕ) (args : Args) (asked : Option ℕ) (machine : Machine) → Spells image args → args.version ≡ 1
        → length (converted image args) ≤ IMAGE_LIMIT → Boots image asked machine → Boots (converted image args) asked machine }
{}
