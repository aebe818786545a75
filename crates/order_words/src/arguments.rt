//! The words of the command line as arguments.

ghost use Rattle.std.specs.Prelude.{◌≡◌, ◌∷◌, ◌++◌, IfNone, IfOk, IfSome, List, map};
ghost use Rattle.order_words.specs.Arguments.{Arg, AreArguments, IsArgument, argument_in, has_value as has_value_in, is_option as is_option_in, spelled, stands_alone as stands_alone_in, texts};
ghost use Rattle.order_words.specs.Answers.{Answers, IsNoCase};

use std::alloc::{AllocError, AllocFailed, Global};

/// Why words aren't read.
#[derive(Clone, Copy, Debug, PartialEq, Eq)]
pub enum Unread {
    /// They have another form.
    Usage,
    /// There was no memory.
    NoMemory,
}

impl From<AllocError> for Unread {
    ghost use Rattle.std.specs.Prelude.{◌≡◌};
    ghost use Rattle.order_words.specs.declared.arguments.Unread.TheVariants.{NoMemory};

    ghost from_gives = { λ _ e. e ≡ NoMemory };

    fn from(_error: AllocError) -> Unread {
        Unread::NoMemory
    }
}

impl<T: Drop> From<AllocFailed<T>> for Unread {
    ghost use Rattle.std.specs.Prelude.{◌≡◌};
    ghost use Rattle.order_words.specs.declared.arguments.Unread.TheVariants.{NoMemory};

    ghost from_gives = { λ _ e. e ≡ NoMemory };

    fn from(_error: AllocFailed<T>) -> Unread {
        Unread::NoMemory
    }
}

/// What one word says, or two.
#[derive(Clone, Copy, Debug)]
pub enum Argument<'a> {
    /// The name of an image.
    Name(&'a str),
    /// An option that stands alone.
    Alone(&'a str),
    /// An option, and the value behind it.
    Valued(&'a str, &'a str),
}

/// Whether a word is an option: it begins with two dashes.
fn is_option(word: &str) -> bool
    ensures { result ≡ is_option_in word.now }
{
    word.as_bytes().starts_with(b"--")
}

/// Whether it is an option that stands alone.
fn stands_alone(word: &str) -> bool
    ensures { result ≡ stands_alone_in word.now }
{
    matches!(word, "--hex" | "--one" | "--first")
}

/// Whether it is an option with a value.
fn has_value(word: &str) -> bool
    ensures { result ≡ has_value_in word.now }
{
    match word {
        "--quantum" | "--steps" | "--states" => true,
        "--preemptions" | "--seconds" => true,
        "--from" | "--irq" | "--kill" => true,
        "--write" | "--see" | "--fails" => true,
        _ => false,
    }
}

/// The argument that begins with this word, and the words behind it.
fn next_argument<'a>(word: &'a String, rest: &'a [String]) -> Option<(Argument<'a>, &'a [String])>
    ensures one { IfSome result (λ found. IsArgument (argument_in found.0)) }
    ensures words { IfSome result (λ found.
        texts (word.now ∷ rest.now) ≡ spelled (argument_in found.0) ++ texts found.1.now) }
    ensures none { IfNone result (IsNoCase (λ (args : List Arg). AreArguments args (texts (word.now ∷ rest.now)))) }
{
    let text = word.as_str();
    if has_value(text) {
        let (value, behind) = rest.split_first()?;
        return Some((Argument::Valued(text, value.as_str()), behind));
    }
    if stands_alone(text) {
        return Some((Argument::Alone(text), rest));
    }
    if is_option(text) {
        return None;
    }
    Some((Argument::Name(text), rest))
}

/// The arguments that words are.
pub fn arguments_of<'a>(alloc: Global, words: &'a [String]) -> Result<Vec<Argument<'a>>, Unread>
    ensures { Answers (λ arguments. AreArguments (map argument_in arguments.items) (texts words.now))
        (λ (args : List Arg). AreArguments args (texts words.now)) result }
{
    let mut arguments = Vec::new(alloc);
    let mut rest = words;
    while let Some((word, behind)) = rest.split_first() {
        let Some((argument, left)) = next_argument(word, behind) else {
            return Err(Unread::Usage);
        };
        arguments.push(argument)?;
        rest = left;
    }
    Ok(arguments)
}
