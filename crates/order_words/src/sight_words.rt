//! What is asked to be seen.

ghost use Rattle.std.specs.List.{list_all, slice_split};
ghost use Rattle.std.specs.Prelude.{◌≡◌, ◌==◌, codes, IfOk, map, Some};
ghost use Rattle.order_model.specs.declared.sights.Sights.{Sights};
ghost use Rattle.order_words.specs.Answers.{Answers};
ghost use Rattle.order_words.specs.Arguments.{argument_in, is_one_of, values_in};
ghost use Rattle.order_words.specs.Values.{given_once as given_once_in, sight_words, sights_in, sights_with as sights_with_in, times as times_in};

use crate::arguments::{Argument, Unread};
use crate::said::values;
use order_model::Sights;
use std::alloc::{AllocError, Global};

fn is_sight(part: &str) -> bool
    ensures { result ≡ is_one_of sight_words part.now }
{
    matches!(part, "console" | "exits" | "waits" | "servers")
}

/// How often it stands among the parts.
fn times(parts: &[&str], sight: &str) -> usize
    ensures { result ≡ times_in sight.now (map (λ part. part.now) parts.now) }
{
    parts.iter().filter(|part| **part == sight).count()
}

/// Whether each is one of the four.
fn are_sights(parts: &[&str]) -> bool
    ensures { result ≡ list_all (is_one_of sight_words) (map (λ part. part.now) parts.now) }
{
    for part in parts {
        if !is_sight(part) {
            return false;
        }
    }
    true
}

/// Whether it stands among the parts, where it may stand once.
fn given_once(parts: &[&str], sight: &str) -> Option<bool>
    ensures { result ≡ given_once_in sight.now (map (λ part. part.now) parts.now) }
{
    let times = times(parts, sight);
    if times > 1 {
        return None;
    }
    Some(times == 1)
}

/// What the parts name.
fn sights_with(parts: &[&str]) -> Option<Sights>
    ensures { result ≡ sights_with_in (map (λ part. part.now) parts.now) }
{
    if !are_sights(parts) {
        return None;
    }
    Some(Sights {
        console: given_once(parts, "console")?,
        exits: given_once(parts, "exits")?,
        waits: given_once(parts, "waits")?,
        servers: given_once(parts, "servers")?,
    })
}

/// The parts of a list, which have commas between them.
fn parts_of<'a>(alloc: Global, list: &'a str) -> Result<Vec<&'a str>, AllocError>
    ensures { IfOk result (λ parts. map (λ part. part.now) parts.items ≡ slice_split (λ byte. byte == 44) list.now) }
{
    list.split(',').collect(alloc)
}

/// What is asked to be seen; all without a list.
pub fn sights_of(alloc: Global, arguments: &[Argument<'_>]) -> Result<Sights, Unread>
    ensures { let lists = values_in (codes "--see") (map argument_in arguments.now) in
        Answers (λ sights. sights_in lists ≡ Some sights) (λ (sights : Sights). sights_in lists ≡ Some sights) result }
{
    let lists = values(alloc, arguments, "--see")?;
    let parts = match lists.as_slice() {
        [] => {
            return Ok(Sights {
                console: true,
                exits: true,
                waits: true,
                servers: true,
            });
        }
        [list] => parts_of(alloc, list)?,
        _ => return Err(Unread::Usage),
    };
    match sights_with(&parts) {
        Some(sights) => Ok(sights),
        None => Err(Unread::Usage),
    }
}
