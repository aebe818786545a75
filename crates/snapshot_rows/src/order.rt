//! Whether keys of two numbers differ.

ghost use Rattle.std.specs.Prelude.{◌↔◌, IsTrue};
ghost use Rattle.std.specs.List.{IsDistinct};
ghost use Rattle.snapshot_rows.specs.PageParts.{same_key};

/// Whether no two of these keys are equal: they are sorted, so that only neighbours are compared.
pub fn are_different(keys: Vec<(u32, u32)>) -> bool
    ensures { IsTrue result ↔ IsDistinct same_key keys.items }
{
    let mut sorted = keys;
    sorted.sort_unstable();
    sorted.as_slice().is_sorted_by(|a, b| *a < *b)
}
