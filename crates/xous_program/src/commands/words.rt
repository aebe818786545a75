//! The words of the command line are read.

ghost use Rattle.std.specs.Prelude.{◌≡◌, ◌≤◌, IfSome};
ghost use Rattle.std.specs.Option.{option_map};
ghost use Rattle.xk_base.specs.declared.limits.TheConstants.{SLOT_LIMIT, STEP_LIMIT};
ghost use Rattle.xous_program.specs.Outcome.Said.{IsInLimits};
ghost use Rattle.xous_program.specs.Words.{check_in, check_of, convert_of, command_in, command_of, demo_of, limit_of, play_in, play_of};
ghost use Rattle.xous_program.specs.Words.{play_with, resume_in, resume_of, resume_with};
ghost use Rattle.xous_program.specs.Words.{slots_of, suspend_in, suspend_of, suspend_with};

use crate::commands::command::{
    CheckWords, CommandWords, DemoWords, PlayWords, ResumeWords, SuspendWords,
};
use crate::commands::numbers::read_number;
use demo_load::CLIENT_LIMIT;
use event_player::Telling;
use xk_base::limits::{DEFAULT_STEPS, SLOT_LIMIT, STEP_LIMIT};

fn read_limit(word: &String) -> Option<u32>
    ensures value { result ≡ limit_of word.now }
    ensures within { IfSome result (λ n. n ≤ STEP_LIMIT) }
{
    read_number(word.as_bytes(), 1, STEP_LIMIT)
}

fn read_slots(word: &String) -> Option<u32>
    ensures value { result ≡ slots_of word.now }
    ensures within { IfSome result (λ n. n ≤ SLOT_LIMIT) }
{
    read_number(word.as_bytes(), 0, SLOT_LIMIT)
}

/// The command of two files, with these numbers.
fn play_with<'a>(
    tells: Telling,
    image: &'a String,
    events: &'a String,
    limit: u32,
    slots: Option<u32>,
    store: Option<&'a String>,
) -> PlayWords<'a>
    requires limited { limit ≤ STEP_LIMIT }
    requires few { IfSome slots (λ n. n ≤ SLOT_LIMIT) }
    ensures { Some (play_in result) ≡
        play_with tells image.now events.now (Some limit) (Some slots) (option_map (λ name. name.now) store.entry) }
{
    PlayWords {
        tells,
        image: image.as_str(),
        events: events.as_str(),
        limit,
        slots,
        store: store.map(String::as_str),
    }
}

/// Reads `IMAGE EVENTS [STEPS [SLOTS [STORE]]]`.
fn read_play<'a>(tells: Telling, words: &'a [String]) -> Option<PlayWords<'a>>
    ensures { option_map play_in result ≡ play_of tells words.now }
{
    match words {
        [image, events] => Some(play_with(tells, image, events, DEFAULT_STEPS, None, None)),
        [image, events, steps] => {
            let limit = read_limit(steps)?;
            Some(play_with(tells, image, events, limit, None, None))
        }
        [image, events, steps, slots] => {
            let limit = read_limit(steps)?;
            let slots = read_slots(slots)?;
            Some(play_with(tells, image, events, limit, Some(slots), None))
        }
        [image, events, steps, slots, store] => {
            let limit = read_limit(steps)?;
            let slots = read_slots(slots)?;
            Some(play_with(tells, image, events, limit, Some(slots), Some(store)))
        }
        _ => None,
    }
}

/// Reads `IMAGE [SLOTS]`.
fn read_check<'a>(words: &'a [String]) -> Option<CheckWords<'a>>
    ensures { option_map check_in result ≡ check_of words.now }
{
    match words {
        [image] => Some(CheckWords {
            image: image.as_str(),
            slots: None,
        }),
        [image, slots] => {
            let slots = read_slots(slots)?;
            Some(CheckWords {
                image: image.as_str(),
                slots: Some(slots),
            })
        }
        _ => None,
    }
}

/// Reads `IMAGE`.
fn read_convert<'a>(words: &'a [String]) -> Option<&'a str>
    ensures { option_map (λ image. image.now) result ≡ convert_of words.now }
{
    match words {
        [image] => Some(image.as_str()),
        _ => None,
    }
}

/// Reads `N`.
fn read_demo(words: &[String]) -> Option<DemoWords>
    ensures { option_map (λ demo. demo.clients) result ≡ demo_of words.now }
{
    match words {
        [clients] => {
            let clients = read_number(clients.as_bytes(), 1, CLIENT_LIMIT)?;
            Some(DemoWords { clients })
        }
        _ => None,
    }
}

/// A run that is to be suspended, with these numbers.
fn suspend_with<'a>(
    image: &'a String,
    events: &'a String,
    limit: u32,
    slots: Option<u32>,
) -> SuspendWords<'a>
    requires limited { limit ≤ STEP_LIMIT }
    requires few { IfSome slots (λ n. n ≤ SLOT_LIMIT) }
    ensures { Some (suspend_in result) ≡ suspend_with image.now events.now (Some limit) (Some slots) }
{
    SuspendWords {
        image: image.as_str(),
        events: events.as_str(),
        limit,
        slots,
    }
}

/// Reads `IMAGE EVENTS [STEPS [SLOTS]]`.
fn read_suspend<'a>(words: &'a [String]) -> Option<SuspendWords<'a>>
    ensures { option_map suspend_in result ≡ suspend_of words.now }
{
    match words {
        [image, events] => Some(suspend_with(image, events, DEFAULT_STEPS, None)),
        [image, events, steps] => {
            let limit = read_limit(steps)?;
            Some(suspend_with(image, events, limit, None))
        }
        [image, events, steps, slots] => {
            let limit = read_limit(steps)?;
            let slots = read_slots(slots)?;
            Some(suspend_with(image, events, limit, Some(slots)))
        }
        _ => None,
    }
}

/// A run that is to be resumed, with these numbers.
fn resume_with<'a>(state: &'a String, events: &'a String, limit: u32, slots: u32) -> ResumeWords<'a>
    requires limited { limit ≤ STEP_LIMIT }
    requires few { slots ≤ SLOT_LIMIT }
    ensures { Some (resume_in result) ≡ resume_with state.now events.now (Some limit) (Some slots) }
{
    ResumeWords {
        state: state.as_str(),
        events: events.as_str(),
        limit,
        slots,
    }
}

/// Reads `STATE EVENTS [STEPS [SLOTS]]`.
fn read_resume<'a>(words: &'a [String]) -> Option<ResumeWords<'a>>
    ensures { option_map resume_in result ≡ resume_of words.now }
{
    match words {
        [state, events] => Some(resume_with(state, events, DEFAULT_STEPS, 0)),
        [state, events, steps] => {
            let limit = read_limit(steps)?;
            Some(resume_with(state, events, limit, 0))
        }
        [state, events, steps, slots] => {
            let limit = read_limit(steps)?;
            let slots = read_slots(slots)?;
            Some(resume_with(state, events, limit, slots))
        }
        _ => None,
    }
}

/// The command that the words are, where they have one of the stated forms.
#[tactic(auto, unfolding(crate::specs::Words::command_of))]
pub fn read_words<'a>(words: &'a [String]) -> Option<CommandWords<'a>>
    ensures read { option_map command_in result ≡ command_of words.now }
    ensures limits { IfSome (command_of words.now) IsInLimits }
{
    let (first, rest) = words.split_first()?;
    match first.as_str() {
        "trace" => Some(CommandWords::Play(read_play(Telling::Trace, rest)?)),
        "run" => Some(CommandWords::Play(read_play(Telling::Run, rest)?)),
        "ledger" => Some(CommandWords::Play(read_play(Telling::Ledger, rest)?)),
        "check" => Some(CommandWords::Check(read_check(rest)?)),
        "convert" => Some(CommandWords::Convert(read_convert(rest)?)),
        "demo" => Some(CommandWords::Demo(read_demo(rest)?)),
        "suspend" => Some(CommandWords::Suspend(read_suspend(rest)?)),
        "resume" => Some(CommandWords::Resume(read_resume(rest)?)),
        _ => None,
    }
}
