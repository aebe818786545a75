//! Zeroed bytes, and what is known of every slice of bytes.

ghost use Rattle.std.specs.Prelude.{◌≡◌, ◌<◌, ℕ, length, slice_index, All, IfOk};

use std::alloc::Global;
use xk_base::NoMemory;

/// That many zeros.
pub(crate) fn zeros(alloc: Global, count: usize) -> Result<Vec<u8>, NoMemory>
    ensures len { IfOk result (λ bytes. length bytes.items ≡ count) }
    ensures zero { IfOk result (λ bytes. (i : ℕ) → slice_index bytes.items i ≡ 0) }
{
    match vec![in alloc; 0; count] {
        Ok(bytes) => Ok(bytes),
        Err(_) => Err(NoMemory),
    }
}

// Each element of a slice of bytes is below 256.
pub(crate) fn are_bytes(bytes: &[u8])
    ensures { All (λ b. b < 256) bytes.now }
{}
