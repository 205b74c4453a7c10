// Examples worked by hand, to which the definitions are held.
#![tactic(auto)]

ghost use Rattle.hand_tried.specs.HandTried.{HandTried};

/// What the definitions give in the cases that were tried by hand. The call does nothing: its
/// clause is the cases.
pub fn hand_tried()
    ensures { HandTried }
{}
