//! The windows of an address space in which user pages lie.

ghost use Rattle.std.specs.Prelude.{◌≡◌, ◌≤◌};
ghost use Rattle.xk_base.specs.Numbers.Windows.{first_page, last_page, window_at};

use crate::ids::Vpn;

/// A window of the address space. User pages lie only in windows.
#[derive(Clone, Copy, Debug, PartialEq, Eq, Hash)]
pub enum Window {
    Image,
    Heap,
    Message,
    Map,
    Stack,
}

impl Window {
    /// The first page of the window.
    pub fn first(self) -> Vpn
        ensures { result.0 ≡ first_page self }
    {
        Vpn(match self {
            Window::Image => 0x0_0010,
            Window::Heap => 0x2_0000,
            Window::Message => 0x4_0000,
            Window::Map => 0x6_0000,
            Window::Stack => 0x7_F000,
        })
    }

    /// The last page of the window.
    pub fn last(self) -> Vpn
        ensures { result.0 ≡ last_page self }
    {
        Vpn(match self {
            Window::Image => 0x0_0FFF,
            Window::Heap => 0x2_0FFF,
            Window::Message => 0x4_0FFF,
            Window::Map => 0x6_0FFF,
            Window::Stack => 0x7_FFFF,
        })
    }
}

/// The window of a page, and `None` exactly outside the windows.
pub fn window_of(vpn: Vpn) -> Option<Window>
    ensures { result ≡ window_at vpn.0 }
{
    match vpn.0 {
        0x0_0010..=0x0_0FFF => Some(Window::Image),
        0x2_0000..=0x2_0FFF => Some(Window::Heap),
        0x4_0000..=0x4_0FFF => Some(Window::Message),
        0x6_0000..=0x6_0FFF => Some(Window::Map),
        0x7_F000..=0x7_FFFF => Some(Window::Stack),
        _ => None,
    }
}
