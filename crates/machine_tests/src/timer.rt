//! Each call once, and a view over a small memory. The values are those of the timer's page as
//! its description has them: the steps at 0, the compare value at 4, whether it is armed at 8.

use crate::expecting::expect_eq;
use crate::memory::SmallMemory;
use timer_device::{Timer, TimerView};
use xk_base::{Stored, UserMemory, Width};

/// The address of the timer's page.
const PAGE: u32 = 0xF000_1000;

#[test]
fn timer_is_armed_and_due_once(rt: HostRuntime) {
    let mut timer = Timer::new();
    expect_eq(&rt, timer.compare(), None);
    expect_eq(&rt, timer.load(8, Width::Word, 24), 0);
    timer.store(4, Width::Word, 30);
    expect_eq(&rt, timer.compare(), Some(30));
    expect_eq(&rt, timer.load(0, Width::Word, 25), 25);
    expect_eq(&rt, timer.load(4, Width::Word, 25), 30);
    expect_eq(&rt, timer.load(8, Width::Word, 25), 1);
    expect_eq(&rt, timer.load(4, Width::Half, 25), 0);
    expect_eq(&rt, timer.due(29), false);
    expect_eq(&rt, timer.due(30), true);
    expect_eq(&rt, timer.due(30), false);
    timer.store(4, Width::Word, 40);
    timer.disarm();
    expect_eq(&rt, timer.compare(), None);
    timer.store(4, Width::Word, 40);
    timer.store(8, Width::Word, 7);
    expect_eq(&rt, timer.compare(), None);
}

#[test]
fn view_serves_the_page_where_it_is_on(rt: HostRuntime) {
    let mut view = TimerView {
        inner: SmallMemory { bytes: [7; 512] },
        timer: Timer::new(),
        on: true,
        steps: 25,
    };
    expect_eq(&rt, view.store(PAGE + 4, Width::Word, 30), Ok(Stored::Done));
    expect_eq(&rt, view.load(PAGE, Width::Word), Ok(Some(25)));
    expect_eq(&rt, view.load(PAGE + 4, Width::Word), Ok(Some(30)));
    expect_eq(&rt, view.fetch(PAGE), Ok(None));
    expect_eq(&rt, view.can_store(PAGE + 8, Width::Word), true);
    expect_eq(&rt, view.load(PAGE + 4096, Width::Word), Ok(None));
    expect_eq(&rt, view.store(0, Width::Word, 9), Ok(Stored::Done));
    expect_eq(&rt, view.fetch(0), Ok(Some(9)));
    view.on = false;
    expect_eq(&rt, view.load(PAGE, Width::Word), Ok(None));
    expect_eq(&rt, view.store(PAGE + 8, Width::Word, 0), Ok(Stored::Fault));
    expect_eq(&rt, view.can_store(PAGE + 8, Width::Word), false);
    expect_eq(&rt, view.load(0, Width::Word), Ok(Some(9)));
    let TimerView { timer, .. } = view;
    expect_eq(&rt, timer.compare(), Some(30));
}
