//! What is asked to make an ending a failure.

ghost use Rattle.std.specs.Prelude.{◌≡◌, ◌≤◌, ◌++◌, ℕ, codes, IfNone, IfOk, IfSome, List, map};
ghost use Rattle.order_model.specs.declared.failing.Failing.{Failing};
ghost use Rattle.order_model.specs.declared.failing.Waiter.{Waiter};
ghost use Rattle.order_words.specs.Answers.{Answers, IsNoCase};
ghost use Rattle.order_words.specs.Values.{AskForAll, AsksFor, HasNoText, IsPlainNumber, IsThread, NamesWaiter, others_than_differ};
ghost use Rattle.xk_base.specs.declared.ids.ThreadId.{ThreadId};

use crate::arguments::Unread;
use event_text::read_digits;
use order_model::{Failing, Waiter};
use std::alloc::{AllocError, Global};
use xk_base::{Pid, ThreadId, Tid};

/// The number that a word spells without leading zeros, if it is from `least` to `most`.
fn plain_number(word: &str, least: u8, most: u8) -> Option<u8>
    requires { 1 ≤ least }
    ensures some { IfSome result (λ n. IsPlainNumber least most word.now n) }
    ensures none { IfNone result (IsNoCase (λ (n : ℕ). IsPlainNumber least most word.now n)) }
{
    let number = read_digits(word.as_bytes())?;
    if number < u64::from(least) || number > u64::from(most) {
        return None;
    }
    if word.as_bytes().starts_with(b"0") {
        return None;
    }
    Some(number as u8)
}

/// The thread that the parts of a word name.
fn thread_of(pid: &str, tid: &str) -> Option<ThreadId>
    ensures some { IfSome result (λ who. IsThread pid.now tid.now who) }
    ensures none { IfNone result (IsNoCase (λ (who : ThreadId). IsThread pid.now tid.now who)) }
{
    let pid = plain_number(pid, 2, 65)?;
    let tid = plain_number(tid, 1, 31)?;
    Some(ThreadId {
        pid: Pid(pid),
        tid: Tid(tid),
    })
}

/// The threads that a word names: those of a process, or one.
fn waiter_of(word: &str) -> Option<Waiter>
    ensures some { IfSome result (λ waiter. NamesWaiter word.now waiter) }
    ensures none { IfNone result (IsNoCase (λ (waiter : Waiter). NamesWaiter word.now waiter)) }
{
    match word.split_once('.') {
        Some((pid, tid)) => match thread_of(pid, tid) {
            Some(who) => Some(Waiter::Thread(who)),
            None => None,
        },
        None => match plain_number(word, 2, 65) {
            Some(pid) => Some(Waiter::Process(Pid(pid))),
            None => None,
        },
    }
}

/// What a word asks for.
fn failing_of<'a>(word: &'a str) -> Option<Failing<'a>>
    ensures some { IfSome result (λ failing. AsksFor word.now failing) }
    ensures none { IfNone result (IsNoCase (λ (failing : Failing). AsksFor word.now failing)) }
{
    if word == "exit" {
        return Some(Failing::Exit);
    }
    if word == "fault" {
        return Some(Failing::Fault);
    }
    if word == "waits" {
        return Some(Failing::Waits(Waiter::Any));
    }
    if let Some(named) = word.strip_prefix("waits=") {
        let waiter = waiter_of(named)?;
        return Some(Failing::Waits(waiter));
    }
    failing_with_text(word)
}

/// What a word asks for that has a text.
fn failing_with_text<'a>(word: &'a str) -> Option<Failing<'a>>
    ensures some { IfSome result (λ failing. AsksFor word.now failing) }
    ensures none { IfNone result (HasNoText word.now) }
{
    if let Some(text) = word.strip_prefix("console=") {
        if text.is_empty() {
            return None;
        }
        return Some(Failing::Console(text));
    }
    let text = word.strip_prefix("console-not=")?;
    if text.is_empty() {
        return None;
    }
    Some(Failing::ConsoleNot(text))
}

/// The words without `differ`.
fn others<'a>(alloc: Global, words: &[&'a str]) -> Result<Vec<&'a str>, AllocError>
    ensures { IfOk result (λ others. map (λ word. word.now) others.items ≡ others_than_differ (map (λ word. word.now) words.now)) }
{
    let mut others = Vec::new(alloc);
    for word in words {
        if *word != "differ" {
            others.push(*word)?;
        }
    }
    Ok(others)
}

/// What each of the words asks for.
fn failings<'a>(alloc: Global, words: &[&'a str]) -> Result<Vec<Failing<'a>>, Unread>
    ensures { let texts = map (λ word. word.now) words.now in
        Answers (λ fails. AskForAll texts fails.items) (λ (fails : List Failing). AskForAll texts fails) result }
{
    let mut fails = Vec::new(alloc);
    for word in words {
        let Some(failing) = failing_of(word) else {
            return Err(Unread::Usage);
        };
        fails.push(failing)?;
    }
    Ok(fails)
}

/// What the words ask for beside `differ`.
pub fn failings_of<'a>(alloc: Global, words: &[&'a str]) -> Result<Vec<Failing<'a>>, Unread>
    ensures { let texts = others_than_differ (map (λ word. word.now) words.now) in
        Answers (λ fails. AskForAll texts fails.items) (λ (fails : List Failing). AskForAll texts fails) result }
{
    let words = others(alloc, words)?;
    failings(alloc, &words)
}
