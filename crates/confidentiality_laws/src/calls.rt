//! What calls depend on.

ghost use Rattle.call_effects.specs.CallViews.{CallsDependOnTheirView};

/// **A call depends on its view alone.** Two machines that differ in nothing but the bytes of pages, the registers and pcs of threads, the
/// count of steps, the reservation, the timer's compare value and which interrupts are pending refuse a call for the same, let it be made
/// again alike, or serve it by the same effects with the same answers.
pub fn calls_depend_on_their_view()
    ensures { CallsDependOnTheirView }
{}
