//! The words of the command line.

ghost use Rattle.std.specs.Option.{option_copied};
ghost use Rattle.std.specs.Prelude.{◌≡◌, ℕ, codes, List, map, Option};
ghost use Rattle.order_model.specs.declared.failing.Failing.{Failing};
ghost use Rattle.xk_base.specs.declared.events.Event.{Event};
ghost use Rattle.order_words.specs.Answers.{Answers};
ghost use Rattle.order_words.specs.Arguments.{argument_in, is_one_of, texts, values_in};
ghost use Rattle.order_words.specs.Words.{AreFailures, AreOnce, Asks, IsFolder, Reads};

use crate::arguments::{Argument, Unread, arguments_of};
use crate::asked::{events_of, given_number_of, image_of, number_of, value_of};
use crate::failing_words::failings_of;
use crate::said::{is_given, values};
use crate::sight_words::sights_of;
use order_model::{Failing, Sights};
use std::alloc::Global;
use xk_base::Event;
use xk_base::limits::STEP_LIMIT;

/// The most events that may come once.
const ONCE_LIMIT: usize = 255;

/// The most preemptions of an order.
const PREEMPTION_LIMIT: u32 = 255;

/// The most seconds of a search.
const TIME_LIMIT: u32 = 4_000_000_000;

/// The most failures that are asked for.
const FAILURE_LIMIT: usize = 255;

/// What is asked for.
#[derive(Drop)]
pub struct Words<'a> {
    pub image: &'a str,
    /// How many steps a slice has at most.
    pub quantum: u32,
    /// How many steps an order has at most, where steps count.
    pub steps: u32,
    /// How many nodes are kept at most.
    pub states: u32,
    /// How many slices of an order may be preempted, if that is given.
    pub preemptions: Option<u32>,
    /// How many seconds the search may take, if that is given.
    pub seconds: Option<u32>,
    /// The events that are played before.
    pub before: Option<&'a str>,
    /// The events that may come, each once.
    pub once: Vec<Event>,
    /// The folder for event files.
    pub folder: Option<&'a str>,
    /// What is seen of endings.
    pub see: Sights,
    /// Whether the console is told as hexadecimal digits.
    pub hex: bool,
    /// What makes an ending a failure.
    pub fails: Vec<Failing<'a>>,
    /// Whether more than one ending is a failure.
    pub differ: bool,
    /// Whether the search ends at the first failure.
    pub first: bool,
}

/// The folder for event files, which has a name.
fn folder_of<'a>(alloc: Global, arguments: &[Argument<'a>]) -> Result<Option<&'a str>, Unread>
    ensures { let names = values_in (codes "--write") (map argument_in arguments.now) in
        Answers (λ folder. IsFolder names (option_copied folder)) (λ (folder : Option (List ℕ)). IsFolder names folder) result }
{
    let folder = value_of(alloc, arguments, "--write")?;
    match folder {
        Some("") => Err(Unread::Usage),
        _ => Ok(folder),
    }
}

/// The events that may come, of which there are few.
fn once_of(alloc: Global, arguments: &[Argument<'_>]) -> Result<Vec<Event>, Unread>
    ensures { let args = map argument_in arguments.now in
        Answers (λ once. AreOnce args once.items) (λ (once : List Event). AreOnce args once) result }
{
    let once = events_of(alloc, arguments)?;
    if once.len() > ONCE_LIMIT {
        return Err(Unread::Usage);
    }
    Ok(once)
}

/// Whether a word is among these.
fn has_word(words: &[&str], word: &str) -> bool
    ensures { result ≡ is_one_of (map (λ word. word.now) words.now) word.now }
{
    for other in words {
        if word == *other {
            return true;
        }
    }
    false
}

/// What these words ask to fail, where it is seen.
fn failures_of<'a>(
    alloc: Global,
    words: &[&'a str],
    see: Sights,
) -> Result<Vec<Failing<'a>>, Unread>
    ensures { let texts = map (λ word. word.now) words.now in
        Answers (λ fails. AreFailures texts see.exits fails.items) (λ (fails : List Failing). AreFailures texts see.exits fails) result }
{
    if words.len() > FAILURE_LIMIT {
        return Err(Unread::Usage);
    }
    if !see.exits && has_word(words, "exit") {
        return Err(Unread::Usage);
    }
    if !see.exits && has_word(words, "fault") {
        return Err(Unread::Usage);
    }
    failings_of(alloc, words)
}

/// What the arguments ask for.
fn words_of<'a>(alloc: Global, arguments: &[Argument<'a>]) -> Result<Words<'a>, Unread>
    ensures { let args = map argument_in arguments.now in Answers (Asks args) (Asks args) result }
{
    let image = image_of(alloc, arguments)?;
    let quantum = number_of(alloc, arguments, "--quantum", 1, STEP_LIMIT, 1_000)?;
    let steps = number_of(alloc, arguments, "--steps", 1, STEP_LIMIT, 100_000)?;
    let states = number_of(alloc, arguments, "--states", 1, u32::MAX, 100_000)?;
    let preemptions = given_number_of(alloc, arguments, "--preemptions", 0, PREEMPTION_LIMIT)?;
    let seconds = given_number_of(alloc, arguments, "--seconds", 1, TIME_LIMIT)?;
    let before = value_of(alloc, arguments, "--from")?;
    let folder = folder_of(alloc, arguments)?;
    let once = once_of(alloc, arguments)?;
    let see = sights_of(alloc, arguments)?;
    let asked = values(alloc, arguments, "--fails")?;
    let fails = failures_of(alloc, &asked, see)?;
    Ok(Words {
        image,
        quantum,
        steps,
        states,
        preemptions,
        seconds,
        before,
        once,
        folder,
        see,
        hex: is_given(arguments, "--hex"),
        fails,
        differ: is_given(arguments, "--one") | has_word(&asked, "differ"),
        first: is_given(arguments, "--first"),
    })
}

/// Reads the words of a command line.
pub fn read_words<'a>(alloc: Global, all: &'a [String]) -> Result<Words<'a>, Unread>
    ensures { Reads (texts all.now) result }
{
    let arguments = arguments_of(alloc, all)?;
    words_of(alloc, &arguments)
}
