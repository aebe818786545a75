//! The view and the memory of the abstract machine. The function has no code; its contract is the law.

ghost use Rattle.timer_device.specs.Page.{ViewIsMemory};

/// With the timer's page over the pages that a process reaches, where it has claimed the timer's
/// interrupt, its memory is the machine's, if none of those pages is at the timer's addresses.
pub fn view_is_memory()
    ensures { ViewIsMemory }
{}
