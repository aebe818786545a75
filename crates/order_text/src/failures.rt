//! The endings that fail.

ghost use Rattle.std.specs.List.{list_any};
ghost use Rattle.std.specs.Prelude.{◌≡◌, is_some};
ghost use Rattle.order_text.specs.Endings.{failing_of as failing_of_place, fails_some, is_several as are_several};

use crate::endings::Ending;
use order_model::Failing;

/// Of what an ending fails, if it does.
pub fn failing_of<'a>(fails: &[Failing<'a>], ending: &Ending) -> Option<Failing<'a>>
    ensures { result ≡ failing_of_place fails.now ending.now.fails }
{
    match ending.fails {
        Some(place) => fails.get(place).copied(),
        None => None,
    }
}

/// Whether there is more than one ending, where there was to be one at most.
pub fn is_several(differ: bool, count: usize) -> bool
    ensures { result ≡ are_several differ count }
{
    differ && count > 1
}

/// Whether an ending fails.
pub fn has_failed(fails: &[Failing<'_>], list: &[Ending]) -> bool
    ensures { result ≡ fails_some fails.now list.now }
{
    list.iter()
        .any(|ending| failing_of(fails, ending).is_some())
}
