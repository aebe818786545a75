//! Pages of a process whose frames are known.

ghost use Rattle.std.specs.Prelude.{◌≡◌};
ghost use Rattle.page_views.specs.Known.{frame_if_page, known_page, no_pages, with_known};

use xk_base::{Access, Frame, Vpn};

/// A page that accesses reached: its number, and the frame that it is in.
#[derive(Clone, Copy, Debug, PartialEq, Eq)]
pub struct KnownPage {
    pub vpn: Vpn,
    pub frame: Frame,
}

/// Pages of a process whose frames are known: one for each kind of access.
#[derive(Clone, Copy, Debug, PartialEq, Eq)]
pub struct KnownPages {
    fetch: Option<KnownPage>,
    load: Option<KnownPage>,
    store: Option<KnownPage>,
}

impl KnownPages {
    /// No page is known.
    pub fn new() -> KnownPages
        ensures { result ≡ no_pages }
    {
        KnownPages {
            fetch: None,
            load: None,
            store: None,
        }
    }

    /// The frame of a page, where accesses of that kind know it.
    pub fn frame(&self, vpn: Vpn, access: Access) -> Option<Frame>
        ensures { result ≡ frame_if_page vpn (known_page self.now access) }
    {
        let known = match access {
            Access::Fetch => self.fetch,
            Access::Load => self.load,
            Access::Store => self.store,
        };
        match known {
            Some(page) if page.vpn.0 == vpn.0 => Some(page.frame),
            _ => None,
        }
    }

    /// Accesses of that kind know the page from now on, and no other.
    pub fn remember(&mut self, access: Access, page: KnownPage)
        ensures { self.new ≡ with_known self.old access page }
    {
        match access {
            Access::Fetch => self.fetch = Some(page),
            Access::Load => self.load = Some(page),
            Access::Store => self.store = Some(page),
        }
    }
}
