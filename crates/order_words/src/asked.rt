//! What the values of options ask for.

ghost use Rattle.std.specs.Option.{option_copied, option_map, option_to_list};
ghost use Rattle.std.specs.Prelude.{◌≡◌, ◌≤◌, ◌++◌, ℕ, IfSome, IsErrOf, List, map, None, OnOk, Option, Some};
ghost use Rattle.xk_base.specs.declared.events.Event.{Event};
ghost use Rattle.order_words.specs.Answers.{Answers};
ghost use Rattle.order_words.specs.Arguments.{argument_in, names_in, values_in};
ghost use Rattle.order_words.specs.Values.{at_most_one as at_most_one_of, event_at as event_in, events_in, given_number_in, number_in, number_within, only as only_of};

use crate::arguments::{Argument, Unread};
use crate::said::{names, values};
use event_text::read_digits;
use std::alloc::Global;
use xk_base::{Event, Pid};

/// The only one of the words.
fn only<'a>(words: &[&'a str]) -> Option<&'a str>
    ensures { option_copied result ≡ only_of (map (λ word. word.now) words.now) }
{
    match words {
        [word] => Some(*word),
        _ => None,
    }
}

/// The only name of an image.
pub fn image_of<'a>(alloc: Global, arguments: &[Argument<'a>]) -> Result<&'a str, Unread>
    ensures { let names = names_in (map argument_in arguments.now) in
        Answers (λ image. only_of names ≡ Some image.now) (λ (image : List ℕ). only_of names ≡ Some image) result }
{
    let names = names(alloc, arguments)?;
    match only(&names) {
        Some(image) => Ok(image),
        None => Err(Unread::Usage),
    }
}

/// One word, or none, and None where there are more.
fn at_most_one<'a>(words: &[&'a str]) -> Option<Option<&'a str>>
    ensures { option_map option_copied result ≡ at_most_one_of (map (λ word. word.now) words.now) }
{
    match words {
        [] => Some(None),
        [word] => Some(Some(*word)),
        _ => None,
    }
}

/// The value of an option that is given once at most.
pub fn value_of<'a>(
    alloc: Global,
    arguments: &[Argument<'a>],
    option: &str,
) -> Result<Option<&'a str>, Unread>
    ensures { let values = values_in option.now (map argument_in arguments.now) in
        Answers (λ value. at_most_one_of values ≡ Some (option_copied value))
        (λ (value : Option (List ℕ)). at_most_one_of values ≡ Some value) result }
{
    let values = values(alloc, arguments, option)?;
    match at_most_one(&values) {
        Some(value) => Ok(value),
        None => Err(Unread::Usage),
    }
}

/// The number that a word spells, if it is from `least` to `most`.
#[tactic(auto, unfolding(crate::specs::Values::number_within))]
fn number(word: &str, least: u32, most: u32) -> Option<u32>
    ensures value { result ≡ number_within least most word.now }
    ensures within { IfSome result (λ n. n ≤ most) }
{
    let number = read_digits(word.as_bytes())?;
    if number < u64::from(least) || number > u64::from(most) {
        return None;
    }
    Some(number as u32)
}

/// The number that the only word spells, or the default where there is none.
fn number_with(words: &[&str], least: u32, most: u32, default: u32) -> Option<u32>
    ensures { result ≡ number_in least most default (map (λ word. word.now) words.now) }
{
    match words {
        [] => Some(default),
        [word] => number(word, least, most),
        _ => None,
    }
}

/// The number that an option asks for, from `least` to `most`.
pub fn number_of(
    alloc: Global,
    arguments: &[Argument<'_>],
    option: &str,
    least: u32,
    most: u32,
    default: u32,
) -> Result<u32, Unread>
    ensures { let values = values_in option.now (map argument_in arguments.now) in
        Answers (λ n. number_in least most default values ≡ Some n) (λ (n : ℕ). number_in least most default values ≡ Some n) result }
{
    let values = values(alloc, arguments, option)?;
    match number_with(&values, least, most, default) {
        Some(number) => Ok(number),
        None => Err(Unread::Usage),
    }
}

/// The number that the only word spells, or none where there is none.
fn given_number_with(words: &[&str], least: u32, most: u32) -> Option<Option<u32>>
    ensures { result ≡ given_number_in least most (map (λ word. word.now) words.now) }
{
    match words {
        [] => Some(None),
        [word] => match number(word, least, most) {
            Some(number) => Some(Some(number)),
            None => None,
        },
        _ => None,
    }
}

/// The number that an option asks for, from `least` to `most`, if it is given.
pub fn given_number_of(
    alloc: Global,
    arguments: &[Argument<'_>],
    option: &str,
    least: u32,
    most: u32,
) -> Result<Option<u32>, Unread>
    ensures { let values = values_in option.now (map argument_in arguments.now) in
        Answers (λ n. given_number_in least most values ≡ Some n) (λ (n : Option ℕ). given_number_in least most values ≡ Some n) result }
{
    let values = values(alloc, arguments, option)?;
    match given_number_with(&values, least, most) {
        Some(number) => Ok(number),
        None => Err(Unread::Usage),
    }
}

/// The event that an argument asks for, if it asks for one; inside None where its value is no such number.
fn event_at(argument: &Argument<'_>) -> Option<Option<Event>>
    ensures { result ≡ event_in (argument_in argument.now) }
{
    match *argument {
        Argument::Valued("--irq", value) => Some(match number(value, 0, 31) {
            Some(number) => Some(Event::Irq(number as u8)),
            None => None,
        }),
        Argument::Valued("--kill", value) => Some(match number(value, 0, 255) {
            Some(pid) => Some(Event::Kill(Pid(pid as u8))),
            None => None,
        }),
        _ => None,
    }
}

/// Adds an event, if one is asked for.
fn add_event(once: &mut Vec<Event>, event: Option<Option<Event>>) -> Result<(), Unread>
    ensures added { OnOk result (map Some once.new.items ≡ map Some once.old.items ++ option_to_list event) }
    ensures faulty { IsErrOf result Unread.Usage → event ≡ Some None }
{
    match event {
        None => Ok(()),
        Some(None) => Err(Unread::Usage),
        Some(Some(event)) => match once.push(event) {
            Ok(()) => Ok(()),
            Err(_) => Err(Unread::NoMemory),
        },
    }
}

/// The events that may come.
pub fn events_of(alloc: Global, arguments: &[Argument<'_>]) -> Result<Vec<Event>, Unread>
    ensures { let events = events_in (map argument_in arguments.now) in
        Answers (λ once. map Some once.items ≡ events) (λ (once : List Event). map Some once ≡ events) result }
{
    let mut once = Vec::new(alloc);
    for argument in arguments {
        add_event(&mut once, event_at(argument))?;
    }
    Ok(once)
}
