//! Laws of single instructions, over numbers: each place of each guard, guarded instructions, and instructions that need no guard.
//!
//! They stand on what an instruction does (`machine_model`), and speak of no object. `confinement_laws` puts them together to
//! the confinement of accepted code. `specs/Places.antt` has the places of the guards with what is known at each,
//! `specs/Own.antt` the steps between them, `specs/Guarded.antt` the guarded instructions, `specs/Plain.antt` the
//! others, `specs/Writes.antt` what written bytes leave.
#![tactic(auto)]

ghost use Rattle.machine_laws.specs.Guarded.{CallLaw, PopLaw, PushLaw, SpLaw, StoreLaw, StoreLeavesLaw};
ghost use Rattle.machine_laws.specs.Own.{OwnLaw, SameLaw};
ghost use Rattle.machine_laws.specs.Plain.{BranchLaw, JumpLaw, PlainLaw, SaveLaw};
ghost use Rattle.machine_laws.specs.Writes.{MemoryLaw, PartLaw, WordLaw, WrittenLaw};

/// One step at a guard's own instruction leads to the guard's next place, to its place of failing, or to the entry for the fault.
pub fn own_leads()
    ensures { OwnLaw }
{}

/// A guarded store writes in the region.
pub fn store_stays()
    ensures { StoreLaw }
{}

/// A guarded store leaves the address that was tested.
pub fn store_leaves()
    ensures { StoreLeavesLaw }
{}

/// A guard's own instructions keep the address that it tests equal to the register that it was taken from.
pub fn same_stays()
    ensures { SameLaw }
{}

/// A guarded PUSH writes in the stack.
pub fn push_stays()
    ensures { PushLaw }
{}

/// A guarded CALL writes its return address in the stack.
pub fn call_stays()
    ensures { CallLaw }
{}

/// A guarded pop leaves SP in the stack.
pub fn pop_stays()
    ensures { PopLaw }
{}

/// SP that is set under its guard is in the stack.
pub fn sp_stays()
    ensures { SpLaw }
{}

/// An instruction that isn't dangerous passes, and writes in the static part alone.
pub fn plain_passes()
    ensures { PlainLaw }
{}

/// A branch goes to its word.
pub fn branch_goes()
    ensures { BranchLaw }
{}

/// A jump passes or goes to its target.
pub fn jump_goes()
    ensures { JumpLaw }
{}

/// A guard's first word saves the status.
pub fn save_saves()
    ensures { SaveLaw }
{}

/// An instruction writes bytes.
pub fn instruction_writes_bytes()
    ensures { WrittenLaw }
{}

/// Memory stays 65,536 bytes after each instruction.
pub fn memory_stays()
    ensures { MemoryLaw }
{}

/// Writes leave the bytes that they avoid.
pub fn part_stays()
    ensures { PartLaw }
{}

/// A word is the same where its bytes are.
pub fn word_stays()
    ensures { WordLaw }
{}
