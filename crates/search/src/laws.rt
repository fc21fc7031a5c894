//! What the definitions of a problem's weight and need promise. Each function does nothing: its contract is the law.

ghost use Rattle.search.specs.Laws.{NeedBoundsTableaux, EnoughStepsSaturate};

/// Without rules, no tableau of a typed problem without quantifiers and equality has more Steps than the problem needs.
pub fn need_bounds_tableaux()
    ensures { NeedBoundsTableaux }
{}

/// With that many Steps to spend, and a weight of at most 512, such a tableau stops where it is saturated, whatever offers
/// are taken.
pub fn enough_steps_saturate()
    ensures { EnoughStepsSaturate }
{}
