//! Address spaces: their frames, and the entries of their pages.

ghost use Rattle.xk_base.specs.Tables.Circle.{is_pid};
ghost use Rattle.std.specs.Prelude.{◌≡◌, ℕ, ◌+◌, ◌-◌, ◌*◌, ◌/◌, ◌%◌, ◌<◌, ◌≤◌, ◌≢◌, ◌⊎◌, true, Some, IsSome, IsTrue, nat_eq, slice_index};
ghost use Rattle.xk_base.specs.declared.ids.Place.{Place};
ghost use Rattle.xk_base.specs.declared.windows.Window.{Window};
ghost use Rattle.xk_base.specs.Tables.Counting.{put_at};
ghost use Rattle.xk_base.specs.Numbers.Windows.{window_at};
ghost use Rattle.phys_pages.specs.Ram.{area, pages, words, IsInside, IsPlaced};
ghost use Rattle.ledger_model.specs.Places.{is_user_place, same_place};
ghost use Rattle.sv32_space.specs.declared.sides.Entry.TheVariants.{Free};
ghost use Rattle.sv32_space.specs.Spaces.{root_at, window_order, first_root_entry, table_frame, table_word, root_word};
ghost use Rattle.sv32_space.specs.Spaces.{window_of_root_entry, leaf_word, leaf_address, IsSpace, IsTableFrame, IsMade};
ghost use Rattle.sv32_space.specs.SpelledEntries.{entries, entry_spelled};
ghost use Rattle.sv32_space.specs.Spellings.{kind_at};

use phys_pages::Ram;
use xk_base::limits::{PAGE_SIZE, TABLE_FRAMES};
use xk_base::{Frame, Pid, Place, Vpn, Window, window_of};

/// The root table of a process, the first frame of its space.
pub fn root_of(pid: Pid) -> Frame
    requires { 2 ≤ pid.0 }
    ensures { result.0 ≡ root_at pid.0 }
{
    Frame(TABLE_FRAMES * (pid.0 as u32 - 2))
}

// How many windows stand before it in their order.
fn order_of(window: Window) -> u32
    ensures { result ≡ window_order window }
{
    match window {
        Window::Image => 0,
        Window::Heap => 1,
        Window::Message => 2,
        Window::Map => 3,
        Window::Stack => 4,
    }
}

// The table that entry `i` of the root points to, in the space from `first` on.
fn table_in(first: Frame, window: Window, i: u32) -> Frame
    requires low { first_root_entry window ≤ i }
    requires high { i < first_root_entry window + 4 }
    requires room { first.0 < 65536 }
    ensures { result.0 ≡ table_frame first.0 window i }
{
    Frame(first.0 + 1 + 4 * order_of(window) + (i - window.first().0 / 1024))
}

// The frame of the table that a place's entry stands in.
#[tactic(auto, using(crate::proofs::SpaceLemmas::table_of_page))]
pub(crate) fn table_at(at: Place) -> Frame
    requires process { 2 ≤ at.pid.0 }
    requires window { IsSome (window_at at.vpn.0) }
    ensures table { (w : Window) → window_at at.vpn.0 ≡ Some w → result.0 ≡ table_frame (root_at at.pid.0) w (at.vpn.0 / 1024) }
    ensures within { IsTableFrame (root_at at.pid.0) result.0 }
{
    match window_of(at.vpn) {
        Some(window) => table_in(root_of(at.pid), window, at.vpn.0 / 1024),
        None => unreachable!(),
    }
}

// The physical address of a place's entry.
fn address_of(ram: &Ram, at: Place) -> u32
    requires made { IsMade ram.now at.pid.0 }
    requires window { IsSome (window_at at.vpn.0) }
    ensures address { (w : Window) → window_at at.vpn.0 ≡ Some w → result ≡ leaf_address (area ram.now) w at }
    ensures aligned { result % 4 ≡ 0 }
    ensures inside { IsInside (area ram.now) result }
    ensures placed { IsPlaced (area ram.now) }
{
    ram.ppn_of(table_at(at)) * PAGE_SIZE + 4 * (at.vpn.0 % 1024)
}

/// The entry of a place, as it stands in its table.
pub fn leaf(ram: &Ram, at: Place) -> u32
    requires made { IsMade ram.now at.pid.0 }
    requires window { IsSome (window_at at.vpn.0) }
    ensures word { (w : Window) → window_at at.vpn.0 ≡ Some w → result ≡ leaf_word (pages ram.now) (root_at at.pid.0) w at.vpn.0 }
    ensures spelled { IsSome (kind_at result) }
    ensures entry { (procs : ℕ) → IsTrue (is_pid procs at.pid.0) → entries procs ram.now at ≡ entry_spelled (area ram.now) result }
{
    ram.word(address_of(ram, at))
}

/// Writes the entry of a place. Every other word of RAM stays.
pub fn set_leaf(ram: &mut Ram, at: Place, word: u32)
    requires made { IsMade ram.old at.pid.0 }
    requires window { IsSome (window_at at.vpn.0) }
    requires spelled { IsSome (kind_at word) }
    ensures words { (w : Window) → window_at at.vpn.0 ≡ Some w
        → words ram.new ≡ put_at nat_eq (words ram.old) (leaf_address (area ram.old) w at) (Some word) }
    ensures entries { (procs : ℕ) → IsTrue (is_pid procs at.pid.0)
        → entries procs ram.new ≡ put_at same_place (entries procs ram.old) at (entry_spelled (area ram.old) word) }
    ensures pages { (f : ℕ) → ¬ IsTableFrame (root_at at.pid.0) f → pages ram.new f ≡ pages ram.old f }
    ensures own { IsMade ram.new at.pid.0 }
    ensures made { (pid : ℕ) → IsMade ram.old pid → IsMade ram.new pid }
    ensures area { area ram.new ≡ area ram.old }
{
    let pa = address_of(ram, at);
    ram.set_word(pa, word);
}

// Fills a frame with zeros.
#[tactic(auto, using(phys_pages::proofs::PageLemmas::page_writes, phys_pages::proofs::PageLemmas::zeroed))]
fn clear_frame(ram: &mut Ram, f: Frame)
    requires { f.0 < (area ram.old).frames }
    ensures zero { (i : ℕ) → slice_index (pages ram.new f.0) i ≡ 0 }
    ensures others { (g : ℕ) → g ≢ f.0 → pages ram.new g ≡ pages ram.old g }
    ensures area { area ram.new ≡ area ram.old }
{
    ram.page_mut(f).fill(0);
}

// Empties the last-level tables of the space from `first` on.
fn clear_tables(ram: &mut Ram, first: Frame)
    requires { first.0 + 21 ≤ (area ram.old).frames }
    ensures zero { (f i : ℕ) → first.0 < f → f < first.0 + 21 → slice_index (pages ram.new f) i ≡ 0 }
    ensures others { (g : ℕ) → (g ≤ first.0) ⊎ (first.0 + 21 ≤ g) → pages ram.new g ≡ pages ram.old g }
    ensures area { area ram.new ≡ area ram.old }
{
    // For the prover: RAM starts at a page and ends below the console.
    let _frames = ram.frames();
    for f in first.0 + 1..first.0 + TABLE_FRAMES {
        clear_frame(ram, Frame(f));
    }
}

// The word of entry `i` of the root of the space from `first` on.
#[tactic(auto, using(crate::proofs::SpaceLemmas::mapped_entry, crate::proofs::SpaceLemmas::table_within))]
fn root_entry(ram: &Ram, first: Frame, i: u32) -> u32
    requires within { first.0 + 21 ≤ (area ram.now).frames }
    requires entry { i < 1024 }
    ensures { result ≡ root_word (area ram.now) first.0 i (window_of_root_entry i) }
{
    // For the prover: RAM starts at a page and ends below the console.
    let _frames = ram.frames();
    match window_of(Vpn(i * 1024 + 1023)) {
        Some(window) => ram.ppn_of(table_in(first, window, i)) * 1024 + 1,
        None => 0,
    }
}

// Writes the root table of the space from `first` on.
fn write_root(ram: &mut Ram, first: Frame)
    requires { first.0 + 21 ≤ (area ram.old).frames }
    ensures root { (i : ℕ) → i < 1024 → table_word (pages ram.new) first.0 i ≡ root_word (area ram.new) first.0 i (window_of_root_entry i) }
    ensures others { (g : ℕ) → g ≢ first.0 → pages ram.new g ≡ pages ram.old g }
    ensures area { area ram.new ≡ area ram.old }
{
    let table = ram.ppn_of(first) * PAGE_SIZE;
    for i in 0..1024 {
        ram.set_word(table + 4 * i, root_entry(ram, first, i));
    }
}

/// Makes the 21 frames from `first` on an empty space: all its entries are free.
pub fn new_space(ram: &mut Ram, first: Frame)
    requires { first.0 + 21 ≤ (area ram.old).frames }
    ensures space { IsSpace (area ram.new) (pages ram.new) first.0 }
    ensures empty { (w : Window) (vpn : ℕ) → window_at vpn ≡ Some w → leaf_word (pages ram.new) first.0 w vpn ≡ 0 }
    ensures made { (pid : ℕ) → 2 ≤ pid → root_at pid ≡ first.0 → IsMade ram.new pid }
    ensures free { (procs : ℕ) (q : Place) → root_at q.pid.0 ≡ first.0 → is_user_place procs q ≡ true
        → entries procs ram.new q ≡ Some Free }
    ensures pages { (f : ℕ) → ¬ IsTableFrame first.0 f → pages ram.new f ≡ pages ram.old f }
    // the spaces of other processes stay, with their entries
    ensures others { (pid : ℕ) → (root_at pid + 21 ≤ first.0) ⊎ (first.0 + 21 ≤ root_at pid) → IsMade ram.old pid → IsMade ram.new pid }
    ensures entries { (procs : ℕ) (q : Place) → (root_at q.pid.0 + 21 ≤ first.0) ⊎ (first.0 + 21 ≤ root_at q.pid.0)
        → entries procs ram.new q ≡ entries procs ram.old q }
    ensures area { area ram.new ≡ area ram.old }
{
    clear_tables(ram, first);
    write_root(ram, first);
}
