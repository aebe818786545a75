//! The timer itself.

ghost use Rattle.std.specs.Prelude.{◌≡◌, None, if◌then◌else◌};
ghost use Rattle.xk_base.specs.UserMemory.{compare_stored, timer_number};
ghost use Rattle.machine_model.specs.Stepping.Timer.{is_due};

use std::marker::Model;
use xk_base::Width;

/// The offset in the timer's page of the count of steps.
const STEPS: u32 = 0;
/// The offset of the compare value; a store there arms the timer.
const COMPARE: u32 = 4;
/// The offset that tells whether the timer is armed; a store there disarms it.
const ARMED: u32 = 8;

/// A timer. Where it is armed it has a compare value: the number of the step at whose end it is due.
/// A contract sees it as that value.
#[derive(Debug, Drop)]
pub struct Timer {
    compare: Option<u32>,
}

impl Model for Timer {
    ghost use Rattle.std.specs.Prelude.{ℕ, Option};

    ghost Value = { Option ℕ };

    ghost view = { λ timer. timer.compare };
}

impl Timer {
    /// A timer that isn't armed.
    pub fn new() -> Timer
        ensures { result ≡ None }
    {
        Timer { compare: None }
    }

    /// What a load at an offset of its page gives, in a step before which `steps` were done: of a word
    /// at 0 the steps, at 4 the compare value or 0, at 8 whether it is armed; of anything else 0.
    pub fn load(&self, offset: u32, width: Width, steps: u32) -> u32
        ensures { result ≡ timer_number (record { steps = steps; compare = self.now }) offset width }
    {
        match (width, offset) {
            (Width::Word, STEPS) => steps,
            (Width::Word, COMPARE) => self.compare.unwrap_or(0),
            (Width::Word, ARMED) => u32::from(self.compare.is_some()),
            _ => 0,
        }
    }

    /// A store at an offset of its page: of a word at 4 it arms the timer with that value, at 8 it
    /// disarms it; anything else does nothing.
    pub fn store(&mut self, offset: u32, width: Width, value: u32)
        ensures { self.new ≡ compare_stored offset width value self.old }
    {
        match (width, offset) {
            (Width::Word, COMPARE) => self.compare = Some(value),
            (Width::Word, ARMED) => self.compare = None,
            _ => {}
        }
    }

    /// Whether it is due when so many steps are done: exactly where they are its compare value. It is
    /// disarmed then.
    pub fn due(&mut self, steps: u32) -> bool
        ensures due { result ≡ is_due self.old steps }
        ensures after { self.new ≡ (if is_due self.old steps then None else self.old) }
    {
        let is_due = self.compare == Some(steps);
        if is_due {
            self.disarm();
        }
        is_due
    }

    /// It is armed no more.
    pub fn disarm(&mut self)
        ensures { self.new ≡ None }
    {
        self.compare = None;
    }

    /// The compare value; `None` exactly where it isn't armed.
    pub fn compare(&self) -> Option<u32>
        ensures { result ≡ self.now }
    {
        self.compare
    }
}
