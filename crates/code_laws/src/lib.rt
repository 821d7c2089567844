//! Laws of the checker's definitions, for the layers above: each is used by calling it.
//!
//! `specs/Laws.antt` states them: which starts follow on which, that two guards never share a place, where the code of an
//! accepted object goes, and that an object has one verdict. They speak of the definitions in `code_model` alone, and of no
//! checker's body.
#![tactic(auto)]

ghost use Rattle.code_laws.specs.Laws.{OneStands, NextStart, StartsApart, BeforeInterior, GuardsApart, GoesOnFirst, GuardedGoesOn, GuardedLeaves, GuardedFree, JumpLands, BranchLands, CallLands, NamedUnits, AcceptedGuarded, OneVerdict};

/// One instruction of one length stands at a place.
pub fn one_stands()
    ensures { OneStands }
{}

/// Behind the instruction at a start the next start lies.
pub fn next_start()
    ensures { NextStart }
{}

/// No start lies within the words of the instruction at a start.
pub fn starts_apart()
    ensures { StartsApart }
{}

/// The instruction before an interior place is of the same guard.
pub fn before_interior()
    ensures { BeforeInterior }
{}

/// Two guards never share a place.
pub fn guards_apart()
    ensures { GuardsApart }
{}

/// A unit start that goes on to an interior place is that guard's first.
pub fn goes_on_first()
    ensures { GoesOnFirst }
{}

/// Behind a guarded instruction its guard serves the next one, where that is interior.
pub fn guarded_goes_on()
    ensures { GuardedGoesOn }
{}

/// Behind the instruction of a guard that serves one alone a unit starts.
pub fn guarded_leaves()
    ensures { GuardedLeaves }
{}

/// A guarded instruction is none of a guard's own.
pub fn guarded_free()
    ensures { GuardedFree }
{}

/// A jump of an accepted object goes to a unit start.
pub fn jump_lands()
    ensures { JumpLands }
{}

/// A branch of an accepted object goes to a unit start or an allowed entry.
pub fn branch_lands()
    ensures { BranchLands }
{}

/// A call of an accepted object goes to a unit start or an allowed entry.
pub fn call_lands()
    ensures { CallLands }
{}

/// The entry and the exports of an accepted object are unit starts.
pub fn named_units()
    ensures { NamedUnits }
{}

/// In an accepted object each dangerous instruction is guarded.
pub fn accepted_guarded()
    ensures { AcceptedGuarded }
{}

/// An object has one verdict.
pub fn one_verdict()
    ensures { OneVerdict }
{}
