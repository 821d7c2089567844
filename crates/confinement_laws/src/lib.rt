//! Confinement of a step of accepted code, over the definitions alone.
//!
//! A domain is an accepted object at its places in memory. Its contexts that are safe are in `specs/Good.antt`: at a unit
//! start, or at a place of a guard with what is known there, or at an entry that the rules allow. `specs/Laws.antt` says that
//! one instruction from a safe context leads to a safe one, and writes in the domain's region or stack alone. The laws
//! speak of no part of the kernel but the two words that hold the current limit and the current top of the stack.
//! They stand on the laws of single instructions (`machine_laws`) and of the checker's definitions (`code_laws`).
#![tactic(auto)]

ghost use Rattle.confinement_laws.specs.Given.{CheckerLaws};
ghost use Rattle.confinement_laws.specs.Kept.{
  CodeLaw,
  CodeLeftLaw,
  LimitsLeftLaw,
  PartLeftLaw,
  StandsLeftLaw,
};
ghost use Rattle.node_model.specs.Instructions.{
  AtEntryLaw,
  FetchLaw,
  GuardLaw,
  InstructionLaw,
  RegionLaw,
  StackLaw,
  UnitLaw,
};
ghost use Rattle.code_model.specs.declared.guards.GuardKind.TheVariants as guard;

use code_laws::{
    branch_lands, call_lands, goes_on_first, guarded_free, guarded_goes_on, guarded_leaves,
    guards_apart, jump_lands,
};
use machine_laws::{
    branch_goes, call_stays, jump_goes, memory_stays, own_leads, part_stays, plain_passes,
    pop_stays, push_stays, same_stays, save_saves, sp_stays, store_leaves, store_stays, word_stays,
};

/// What the checker's definitions say of guards and targets.
fn code_laws()
    ensures { CheckerLaws }
{
    guards_apart();
    goes_on_first();
    guarded_goes_on();
    guarded_leaves();
    guarded_free();
    jump_lands();
    branch_lands();
    call_lands();
}

/// A step at a place of a guard that keeps an address in the region leads to a safe context, and writes in the region alone.
pub fn store_guard_leads()
    ensures { GuardLaw guard.Store }
{
    code_laws();
    own_leads();
    same_stays();
    store_stays();
    store_leaves();
    plain_passes();
}

/// A step at a place of a growth guard.
pub fn growth_guard_leads()
    ensures { GuardLaw guard.Growth }
{
    code_laws();
    own_leads();
    same_stays();
    push_stays();
    call_stays();
}

/// A step at a place of a pop guard.
pub fn pop_guard_leads()
    ensures { GuardLaw guard.Pop }
{
    code_laws();
    own_leads();
    same_stays();
    pop_stays();
}

/// A step at a place of an SP guard.
pub fn sp_guard_leads()
    ensures { GuardLaw guard.Sp }
{
    code_laws();
    own_leads();
    same_stays();
    sp_stays();
}

/// A step at a unit start.
pub fn unit_leads()
    ensures { UnitLaw }
{
    code_laws();
    plain_passes();
    branch_goes();
    jump_goes();
    save_saves();
}

/// A step of accepted code, from any safe context that isn't at an entry.
pub fn instruction_leads()
    ensures { InstructionLaw }
{
    store_guard_leads();
    growth_guard_leads();
    pop_guard_leads();
    sp_guard_leads();
    unit_leads();
}

/// What a step of accepted code pushes lies in the stack, and what it pops lay there.
pub fn stack_stays()
    ensures { StackLaw }
{
    code_laws();
    push_stays();
    call_stays();
}

/// Where the stack is a part of the region, all that a step writes lies in the region.
pub fn region_stays()
    ensures { RegionLaw }
{}

/// A safe context that isn't at an entry stands at a start, and an instruction is fetched there.
pub fn good_fetches()
    ensures { FetchLaw }
{}

/// A safe context at or above F000 stands at an entry, and where a call may name it a word is on the stack.
pub fn good_above_is_at_entry()
    ensures { AtEntryLaw }
{}

/// Code stands as long as its bytes are the same.
pub fn code_kept()
    ensures { CodeLaw }
{
    word_stays();
}

/// Writes in a domain's region and stack leave the code of each domain.
pub fn code_left()
    ensures { CodeLeftLaw }
{
    part_stays();
    word_stays();
}

/// Writes in a domain's region and stack leave what is apart from them.
pub fn part_left()
    ensures { PartLeftLaw }
{
    part_stays();
}

/// Writes in a domain's region and stack leave the words for the current limit and the current top.
pub fn limits_left()
    ensures { LimitsLeftLaw }
{
    part_stays();
    word_stays();
}

/// Behind an instruction that wrote in a domain's region and stack each domain still stands.
pub fn stands_left()
    ensures { StandsLeftLaw }
{
    memory_stays();
    part_stays();
    word_stays();
}
