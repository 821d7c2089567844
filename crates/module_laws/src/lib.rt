//! What the calls on modules do keeps the kernel settled: laws of the definitions of `kernel_model`. Each is used by calling it.
#![tactic(auto)]

ghost use Rattle.module_laws.specs.Laws.{EndedLaw, EnteredLaw, LeftLaw};

/// A call of a module.
pub fn entered_is_settled()
    ensures { EnteredLaw }
{}

/// A module that leaves.
pub fn left_is_settled()
    ensures { LeftLaw }
{}

/// A module that ends in a call.
pub fn ended_module_is_settled()
    ensures { EndedLaw }
{}
