//! Commands, as the words of the command line say them.

ghost use Rattle.std.specs.Prelude.{◌≤◌, unwrap_or};
ghost use Rattle.xk_base.specs.declared.limits.TheConstants.{SLOT_LIMIT, STEP_LIMIT};
ghost use Rattle.demo_load.specs.declared.TheConstants.{CLIENT_LIMIT};

use event_player::Telling;

/// `trace`, `run` or `ledger`: the events of a file are played on an image.
#[derive(Clone, Copy, Debug)]
pub struct PlayWords<'a> {
    pub tells: Telling,
    /// The names of the two files.
    pub image: &'a str,
    pub events: &'a str,
    /// The step limit.
    pub limit: u32,
    /// The slots of the swap store, where the image's own aren't taken.
    pub slots: Option<u32>,
    /// The file of the swap store, where it isn't kept in memory.
    pub store: Option<&'a str>,
    ghost limited: { limit ≤ STEP_LIMIT },
    ghost few: { unwrap_or slots 0 ≤ SLOT_LIMIT },
}

/// `suspend`: the events of a file are played on an image, and the last state is written.
#[derive(Clone, Copy, Debug)]
pub struct SuspendWords<'a> {
    /// The names of the two files.
    pub image: &'a str,
    pub events: &'a str,
    /// The step limit.
    pub limit: u32,
    /// The slots of the swap store, where the image's own aren't taken.
    pub slots: Option<u32>,
    ghost limited: { limit ≤ STEP_LIMIT },
    ghost few: { unwrap_or slots 0 ≤ SLOT_LIMIT },
}

/// `resume`: the events of a file are played on from a state that was written.
#[derive(Clone, Copy, Debug)]
pub struct ResumeWords<'a> {
    /// The names of the two files.
    pub state: &'a str,
    pub events: &'a str,
    /// The step limit, where the state hasn't more steps.
    pub limit: u32,
    /// The slots of the swap store.
    pub slots: u32,
    ghost limited: { limit ≤ STEP_LIMIT },
    ghost few: { slots ≤ SLOT_LIMIT },
}

/// `check`: an image is planned.
#[derive(Clone, Copy, Debug)]
pub struct CheckWords<'a> {
    pub image: &'a str,
    /// The slots of the swap store, where the image's own aren't taken.
    pub slots: Option<u32>,
    ghost few: { unwrap_or slots 0 ≤ SLOT_LIMIT },
}

/// `demo`: the load of so many clients is played.
#[derive(Clone, Copy, Debug)]
pub struct DemoWords {
    pub clients: u32,
    ghost some: { 1 ≤ clients },
    ghost few: { clients ≤ CLIENT_LIMIT },
}

/// What the program is asked to do.
#[derive(Clone, Copy, Debug)]
pub enum CommandWords<'a> {
    Play(PlayWords<'a>),
    Check(CheckWords<'a>),
    /// `convert`: the image of that name is written in version 2.
    Convert(&'a str),
    /// The load of so many clients.
    Demo(DemoWords),
    Suspend(SuspendWords<'a>),
    Resume(ResumeWords<'a>),
}
