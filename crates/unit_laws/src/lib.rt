//! Laws of the units of objects with guards, for the layers above: each is used by calling it.
//!
//! `specs/Running.antt` says what running a unit is, `specs/Lines.antt` what each line of a guard does, and
//! `specs/Guards.antt` where a run of a guard ends, `specs/Frame.antt` that what names neither R4 nor R5 is the same whatever
//! they hold, `specs/Guarded.antt` what the guarded instruction does behind its guard, and `specs/Rows.antt` where a run of each
//! kind of unit ends, and `specs/Groups.antt` that of a group of stores.
#![tactic(auto)]

ghost use Rattle.unit_laws.specs.Frame.{FrameLaw};
ghost use Rattle.unit_laws.specs.Groups.{GroupUnitLaw};
ghost use Rattle.unit_laws.specs.Guarded.{AtR4Law, GuardedLaw, ThroughLaw};
ghost use Rattle.unit_laws.specs.Guards.{GrowthGuardLaw, PopGuardLaw, SpGuardLaw, StoreGuardLaw};
ghost use Rattle.unit_laws.specs.Lines.{ComparedLaw, LineLaw};
ghost use Rattle.unit_laws.specs.Running.{FollowLaw, JoinLaw, OnceLaw};
ghost use Rattle.unit_laws.specs.Rows.{BranchUnitLaw, CalleeUnitLaw, ChangeUnitLaw, ComputedUnitLaw, GoesOnLaw, GoesToLaw, GrowthUnitLaw, JumpUnitLaw, OwnUnitLaw, PcMovesLaw, PlaceLaw, PopIntoUnitLaw, PopUnitLaw, ReturnUnitLaw, SetSpUnitLaw, ShortJumpUnitLaw, StoreUnitLaw};

use msp_decode::laws::{first_word_decides, one_instruction};

/// A run inside a unit is followed by a run of what it leads to.
pub fn runs_join()
    ensures { JoinLaw }
{}

/// Running a unit goes on where a run inside it leads.
pub fn unit_follows()
    ensures { FollowLaw }
{}

/// Running a unit from a context ends in one way.
pub fn unit_ends_once()
    ensures { OnceLaw }
{
    one_instruction();
    first_word_decides();
}

/// What each line of a guard does to the sixteen registers, exactly. It writes nothing.
pub fn line_does()
    ensures { LineLaw }
{}

/// The carry flag tells after a comparison whether the destination is at least the source, and the zero flag whether they are
/// equal.
pub fn comparison_tells()
    ensures { ComparedLaw }
{}

/// Where a run of the store guard ends: at the guarded instruction, with the address in R4, exactly where it is in the region, and
/// at F000 elsewhere.
pub fn store_guard_ends()
    ensures { StoreGuardLaw }
{}

/// Where a run of the growth guard ends: at the guarded instruction exactly where SP is at least the current limit, and at F002
/// elsewhere.
pub fn growth_guard_ends()
    ensures { GrowthGuardLaw }
{}

/// Where a run of the pop guard ends: at the guarded instruction exactly where SP is not the current top, and at F002 elsewhere.
pub fn pop_guard_ends()
    ensures { PopGuardLaw }
{}

/// Where a run of the SP guard ends: at the guarded instruction exactly where R4 is between the current limit and the current top,
/// and at F002 elsewhere.
pub fn sp_guard_ends()
    ensures { SpGuardLaw }
{}

/// An instruction that names neither R4 nor R5 does the same whatever they hold, and leaves them.
pub fn others_kept()
    ensures { FrameLaw }
{}

/// Where a guard passes, the guarded instruction ends the unit, with all but R4 and R5 as it leaves them without the guard.
pub fn guarded_ends()
    ensures { GuardedLaw }
{}

/// An operation on z(R4) does what it does on x(Rn) or on an absolute address, where both are one address, but for R4 and R5.
pub fn through_same()
    ensures { ThroughLaw }
{}

/// RRC, RRA, SWPB or SXT on @R4 does what it does on x(Rn), on @Rn or on an absolute address, where R4 has that address, but for R4
/// and R5.
pub fn at_r4_same()
    ensures { AtR4Law }
{}

/// An instruction that neither writes PC nor is made of it leads behind itself.
pub fn goes_on()
    ensures { GoesOnLaw }
{}

/// A context with another PC is a context.
pub fn pc_moves()
    ensures { PcMovesLaw }
{}

/// A branch and a call of a place lead there.
pub fn goes_to()
    ensures { GoesToLaw }
{}

/// An instruction that is its own unit ends it, with all but R4 and R5 as it leaves them.
pub fn own_unit_ends()
    ensures { OwnUnitLaw }
{}

/// A branch that is a unit changes PC alone.
pub fn branch_unit_ends()
    ensures { BranchUnitLaw }
{}

/// A jump over a branch changes PC alone: it leads to the branch's target where the condition holds, and behind the unit elsewhere.
pub fn jump_unit_ends()
    ensures { JumpUnitLaw }
{}

/// A jump that is a unit changes PC alone: it leads to its target where the condition holds, and behind the unit elsewhere.
pub fn short_jump_unit_ends()
    ensures { ShortJumpUnitLaw }
{}

/// A computed jump ends at F004 with its target in R4.
pub fn computed_unit_ends()
    ensures { ComputedUnitLaw }
{}

/// A guarded operation on memory does what the source's does where its address is in the region, and ends at F000 elsewhere.
pub fn store_unit_ends()
    ensures { StoreUnitLaw }
{}

/// So does a guarded RRC, RRA, SWPB or SXT.
pub fn change_unit_ends()
    ensures { ChangeUnitLaw }
{}

/// The stores of a group behind one guard do what the source's do, one after another, where the address of the first is where the
/// guard lets it be, and the unit ends at F000 elsewhere.
pub fn group_unit_ends()
    ensures { GroupUnitLaw }
{}

/// A guarded PUSH or CALL of a place does what the source's does where SP is at least the current limit, and ends at F002
/// elsewhere.
pub fn growth_unit_ends()
    ensures { GrowthUnitLaw }
{}

/// A guarded computed call ends at F006 with its target in R4 where SP is at least the current limit, and at F002 elsewhere.
pub fn callee_unit_ends()
    ensures { CalleeUnitLaw }
{}

/// A guarded pop does what the source's does where SP isn't the current top, and ends at F002 elsewhere.
pub fn pop_unit_ends()
    ensures { PopUnitLaw }
{}

/// So does a guarded pop by way of R4.
pub fn pop_into_unit_ends()
    ensures { PopIntoUnitLaw }
{}

/// A guarded return ends at F004 with its target in R4 where SP isn't the current top, and at F002 elsewhere.
pub fn return_unit_ends()
    ensures { ReturnUnitLaw }
{}

/// A guarded operation on SP does what the source's does where the result is from the current limit to the current top, and ends at
/// F002 elsewhere.
pub fn set_sp_unit_ends()
    ensures { SetSpUnitLaw }
{}

/// Where an instruction that goes on stands doesn't show in what it does, but for PC.
pub fn place_hidden()
    ensures { PlaceLaw }
{}
