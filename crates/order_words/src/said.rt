//! What arguments say: their names, the values of an option, and whether one stands alone.

ghost use Rattle.std.specs.Prelude.{◌≡◌, ◌++◌, IfOk, map, OnOk};
ghost use Rattle.std.specs.Option.{option_copied, option_to_list};
ghost use Rattle.order_words.specs.Arguments.{argument_in, is_alone as is_alone_in, is_given as is_given_in, name_at as name_in, names_in, value_at as value_in, values_in};

use crate::arguments::Argument;
use std::alloc::{AllocError, Global};

/// Adds a word, if there is one.
fn add<'a>(words: &mut Vec<&'a str>, word: Option<&'a str>) -> Result<(), AllocError>
    ensures { OnOk result (map (λ word. word.now) words.new.items
        ≡ map (λ word. word.now) words.old.items ++ option_to_list (option_copied word.entry)) }
{
    if let Some(word) = word {
        words.push(word)?;
    }
    Ok(())
}

/// The name that an argument is.
fn name_at<'a>(argument: &Argument<'a>) -> Option<&'a str>
    ensures { option_copied result ≡ name_in (argument_in argument.now) }
{
    match *argument {
        Argument::Name(name) => Some(name),
        _ => None,
    }
}

/// The names of images.
pub fn names<'a>(alloc: Global, arguments: &[Argument<'a>]) -> Result<Vec<&'a str>, AllocError>
    ensures { IfOk result (λ names. map (λ name. name.now) names.items ≡ names_in (map argument_in arguments.now)) }
{
    let mut names = Vec::new(alloc);
    for argument in arguments {
        add(&mut names, name_at(argument))?;
    }
    Ok(names)
}

/// The value that an argument gives the option.
fn value_at<'a>(argument: &Argument<'a>, option: &str) -> Option<&'a str>
    ensures { option_copied result ≡ value_in option.now (argument_in argument.now) }
{
    match *argument {
        Argument::Valued(other, value) if other == option => Some(value),
        _ => None,
    }
}

/// The values of the option, in their order.
pub fn values<'a>(
    alloc: Global,
    arguments: &[Argument<'a>],
    option: &str,
) -> Result<Vec<&'a str>, AllocError>
    ensures { IfOk result (λ values. map (λ value. value.now) values.items ≡ values_in option.now (map argument_in arguments.now)) }
{
    let mut values = Vec::new(alloc);
    for argument in arguments {
        add(&mut values, value_at(argument, option))?;
    }
    Ok(values)
}

/// Whether an argument is the option, alone.
fn is_alone(argument: &Argument<'_>, option: &str) -> bool
    ensures { result ≡ is_alone_in option.now (argument_in argument.now) }
{
    match *argument {
        Argument::Alone(other) => other == option,
        _ => false,
    }
}

/// Whether the option stands among them, alone.
pub fn is_given(arguments: &[Argument<'_>], option: &str) -> bool
    ensures { result ≡ is_given_in option.now (map argument_in arguments.now) }
{
    for argument in arguments {
        if is_alone(argument, option) {
            return true;
        }
    }
    false
}
