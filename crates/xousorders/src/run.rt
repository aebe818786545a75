//! Orders are searched, and what was found is told.

ghost use Rattle.std.specs.Option.{option_copied};
ghost use Rattle.std.specs.Prelude.{◌≡◌, ◌≤◌, IfErr, IfOk, IsSome, OnErr, OnOk, length};
ghost use Rattle.event_text.specs.Spelling.{AreAskable};
ghost use Rattle.order_search.specs.Faults.{IsBegun};
ghost use Rattle.xk_base.specs.Outside.{Rose};
ghost use Rattle.xk_ports.specs.Told.{Grows};
ghost use Rattle.xousorders.specs.Asked.{IsAsked, Stops, asking_of};
ghost use Rattle.xousorders.specs.Calls.{Ends, command_in, limits_in, most_preemptions as most_of, sides_of, strategy_for};
ghost use Rattle.xousorders.specs.Halts.{outcome_for};
ghost use Rattle.xousorders.specs.Outcomes.{IsUnfiled};
ghost use Rattle.xousorders.specs.Reports.{AreSpelled, files_in, report_of};

use crate::event_files::EventFiles;
use crate::files::write_files;
use crate::halt::Halt;
use crate::image::{read_events, read_image};
use crate::levels::search_levels;
use crate::limits::Limits;
use crate::outcome::{Outcome, ended, unplayed};
use crate::search::Told;
use crate::view::View;
use crate::watching::Watch;
use graph_search::Strategy;
use order_model::Orders;
use order_search::{Quest, Subject, orders_are_replayed};
use order_words::Words;
use program_status::{Planned, Status, plan_bytes};
use std::alloc::Global;
use xk_base::{Event, Failed};
use xk_ports::{Host, Sink};

/// Which node a search follows next, if so many preemptions are asked for.
fn strategy_of(preemptions: Option<u32>) -> Strategy
    ensures { result ≡ strategy_for preemptions }
{
    match preemptions {
        None => Strategy::Breadth,
        Some(_) => Strategy::Depth,
    }
}

/// How many preemptions an order has at most.
fn most_preemptions(preemptions: Option<u32>) -> u32
    ensures { result ≡ most_of preemptions }
{
    preemptions.unwrap_or(0)
}

/// Within which limits the words ask to search.
fn limits_of(words: &Words<'_>) -> Limits
    ensures { result ≡ limits_in words.now }
{
    Limits {
        strategy: strategy_of(words.preemptions),
        states: words.states as usize,
        steps: words.steps,
        preemptions: most_preemptions(words.preemptions),
        first: words.first,
        seconds: words.seconds,
    }
}

/// The search that is asked for, without preemptions and without a bound of steps. The events before are played once, so that it is known
/// that they can be.
fn quest_of<H: Host>(
    alloc: Global,
    host: &mut H,
    image: &str,
    before: Option<&str>,
    quantum: u32,
    once: Vec<Event>,
    exits: bool,
) -> Result<Quest, Status>
    requires { length once.items ≤ 255 }
    ensures asked { let asking = asking_of image.now (option_copied before.entry) quantum once.items exits in
        IfOk result (λ quest. IsAsked (H.file host.old) asking quest.subject) }
    ensures begun { IfOk result (λ quest. IsBegun quest.subject) }
    ensures stops { let asking = asking_of image.now (option_copied before.entry) quantum once.items exits in
        let rose = Rose (H.faults host.old) (H.faults host.new) in IfErr result (Stops (H.file host.old) asking rose ⊥) }
{
    let file = read_image(alloc, host, image)?;
    let planned = plan_bytes(alloc, &file, None)?;
    let before = read_events(alloc, host, before)?;
    let Planned { args: _, plan } = planned;
    let orders = Orders {
        quantum,
        bound: None,
        once,
        exits,
        preemptions: 0,
    };
    let subject = Subject {
        plan,
        file,
        before,
        orders,
    };
    let quest = match Quest::new(alloc, subject) {
        Ok(quest) => quest,
        Err(_) => return Err(Status::NoMemory),
    };
    match quest.begin_alone() {
        Ok(()) => Ok(quest),
        Err(answer) => Err(unplayed(answer)),
    }
}

/// Opens the folder for event files, if there is one.
fn open_folder<F: EventFiles>(files: &mut F, folder: Option<&str>) -> Result<(), Failed>
    ensures written { F.written files.new ≡ F.written files.old }
    ensures opened { OnOk result (F.unopened files.new ≡ F.unopened files.old) }
    ensures cause { OnErr result (Rose (F.unopened files.old) (F.unopened files.new)) }
    ensures faults { F.faults files.new ≡ F.faults files.old }
{
    match folder {
        None => Ok(()),
        Some(folder) => files.open(folder),
    }
}

/// Writes the order to each ending as an event file into the folder, if there is one.
fn write_orders<F: EventFiles>(
    alloc: Global,
    files: &mut F,
    folder: Option<&str>,
    quest: &Quest,
    told: &Told,
) -> Result<(), Status>
    ensures filed { let report = report_of quest.now.subject told.now in
        OnOk result (Grows (F.written files.old) (F.written files.new) (files_in (option_copied folder.entry) report)) }
    ensures spelled { let report = report_of quest.now.subject told.now in
        AreAskable quest.now.subject.orders.once.items → OnOk result (IsSome (option_copied folder.entry) → AreSpelled report) }
    ensures unfiled { IfErr result (IsUnfiled (Rose (F.faults files.old) (F.faults files.new))) }
    ensures opened { F.unopened files.new ≡ F.unopened files.old }
{
    let Some(folder) = folder else {
        return Ok(());
    };
    let endings = &told.endings.list;
    write_files(alloc, files, folder, quest.before(), quest.once(), endings)
}

/// How the program ends if its searches end untold.
fn halted(halt: Halt) -> Outcome
    ensures { result ≡ outcome_for halt }
{
    match halt {
        Halt::Stopped(status) => Outcome::Ended(status),
        // A search with a bound of steps doesn't end so.
        Halt::Timer => Outcome::Ended(Status::NoMemory),
        Halt::Unwritten => Outcome::Ended(Status::WriteFault),
    }
}

/// Searches what the words ask for, and tells what was found. It ends as `Ends` says: the lines of endings as they are found and of reports
/// of searches of that image, those events and those orders are written, or only the first of these.
pub fn run<H: Host, F: EventFiles, K: Sink, W: Watch>(
    alloc: Global,
    words: Words<'_>,
    host: &mut H,
    files: &mut F,
    out: &mut K,
    watch: &mut W,
) -> Outcome
    requires few { length words.once.items ≤ 255 }
    requires askable { AreAskable words.once.items }
    ensures { let sides = sides_of H.Host K.Sink F.EventFiles host.old host.new out.old out.new files.old files.new in
        Ends ⟦<[u8; 32] as Ord>⟧.cmp (command_in words.entry) sides result }
{
    let limits = limits_of(&words);
    let Words {
        image,
        quantum,
        before,
        once,
        folder,
        see,
        hex,
        fails,
        differ,
        ..
    } = words;
    let view = View {
        sights: see,
        hex,
        fails,
        differ,
    };
    let mut quest = match quest_of(alloc, host, image, before, quantum, once, see.exits) {
        Ok(quest) => quest,
        Err(status) => return Outcome::Ended(status),
    };
    match open_folder(files, folder) {
        Ok(()) => {}
        Err(_) => return Outcome::Ended(Status::WriteFault),
    }
    let told = match search_levels(alloc, &mut quest, &view, &limits, out, watch) {
        Ok(told) => told,
        Err(halt) => return halted(halt),
    };
    orders_are_replayed();
    match write_orders(alloc, files, folder, &quest, &told) {
        Ok(()) => ended(&view, told.found.extent, &told.endings.list),
        Err(status) => Outcome::Ended(status),
    }
}
