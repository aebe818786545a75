//! Where an access leads.

ghost use Rattle.std.specs.Prelude.{◌≡◌};
ghost use Rattle.page_views.specs.EntryAccess.{is_given_target, is_page_target};

use xk_base::Frame;

/// Where an access leads.
#[derive(Clone, Copy, Debug, PartialEq, Eq)]
pub enum Target {
    Page(Frame),
    Console,
    Nothing,
}

impl Target {
    /// Whether it is a page.
    pub fn is_page(&self) -> bool
        ensures { result ≡ is_page_target self.now }
    {
        matches!(self, Target::Page(_))
    }

    /// Whether the process has the access.
    pub fn is_given(&self) -> bool
        ensures { result ≡ is_given_target self.now }
    {
        !matches!(self, Target::Nothing)
    }
}
