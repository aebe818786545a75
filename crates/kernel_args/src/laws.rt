//! What holds of every list of bytes.

ghost use Rattle.std.specs.Prelude.{◌≡◌, ℕ, ◌<◌, ◌*◌, List, None, slice_index, All};
ghost use Rattle.kernel_args.specs.declared.args.Args.{Args};
ghost use Rattle.kernel_args.specs.Converting.{converted, converted_args, converted_process, converted_row, IsConvertible};
ghost use Rattle.kernel_args.specs.Image.{Spells};
ghost use Rattle.kernel_args.specs.Faults.{args_fault};
ghost use Rattle.kernel_args.specs.Loads.{loaded_bytes};

/// Bytes spell exactly one list of arguments, or they have a fault, and never both. The function
/// does nothing; its contract is the law.
pub fn spelled_once_or_faulty()
    ensures spelled { (bytes : List ℕ) → ((i : ℕ) → slice_index bytes i < 256) → args_fault bytes ≡ None
        → (args : Args) × Spells bytes args }
    ensures once { (bytes : List ℕ) (one other : Args) → Spells bytes one → Spells bytes other → one ≡ other }
    ensures never_both { (bytes : List ℕ) (args : Args) → Spells bytes args → args_fault bytes ≡ None }
{}

/// An image of version 1 that can be converted becomes one that spells the converted arguments, and so has no fault of
/// the row of tags; each process has the bytes that it had. The function does nothing; its contract is the law.
pub fn converted_is_spelled()
    ensures spelled { (bytes : List ℕ) (args : Args) → IsConvertible bytes args
        → Spells (converted bytes args) (converted_args bytes args) }
    ensures bytes_kept { (bytes : List ℕ) (args : Args) → IsConvertible bytes args
        → All (λ p. loaded_bytes (converted bytes args) (converted_process bytes (4 * args.words) (converted_row bytes args) p)
        ≡ loaded_bytes bytes p) args.procs }
{}
