//! Laws of objects with guards, for the layers above: each is used by calling it.
#![tactic(auto)]

ghost use Rattle.insert_laws.specs.Laws.{StartsArePieces, RelocsArePieces, FormRulesPass, StartsAreUnits, EntryRulePasses, TargetRulePasses, EndRulePasses, JumpRulePasses, NothingRefused, VerdictAccepts, InsertedIsAccepted, NoLoadGuards};
ghost use Rattle.insert_laws.specs.Source.{StartsDecided};
ghost use Rattle.insert_laws.specs.Stores.{GroupsStore};
ghost use Rattle.insert_laws.specs.Lines.{CodeIsPieces, LinesAreClean, LinesAreSpelled, GroupsHaveUnits, PlacesWithin};

use code_laws::{guards_apart, next_start, one_stands, starts_apart};
use insert_model::laws::{
    groups_stand, instruction_size, line_stands, short_jumps_fit, sizes_alike,
};
use msp_decode::laws::{first_word_decides, one_instruction, reading_law};
use msp_encode::laws::legal_by_cases;

/// The starts of an object with guards are the places of the pieces of its units, so all of its code is spelled.
pub fn starts_are_pieces()
    ensures { StartsArePieces }
{
    one_stands();
    reading_law();
    legal_by_cases();
    groups_stand();
    short_jumps_fit();
}

/// The relocations of the code of an object with guards are those of the words of its pieces.
pub fn relocs_are_pieces()
    ensures { RelocsArePieces }
{}

/// All rules but those on targets, on the code's end, on the entry and the exports refuse no object with guards: all of its code
/// is spelled, none of it is RETI, PC is written by branches alone and SR by flags, SP, memory, pushes and pops stand behind
/// their guards, absolute words that are written are in the static part, and only words that may be relocated are.
pub fn form_rules_pass()
    ensures { FormRulesPass }
{
    one_stands();
    reading_law();
    legal_by_cases();
    groups_stand();
    short_jumps_fit();
    one_instruction();
    first_word_decides();
}

/// The place map sends the offset of each start of the source to a unit start.
pub fn starts_are_units()
    ensures { StartsAreUnits }
{
    one_stands();
    reading_law();
    legal_by_cases();
    groups_stand();
    short_jumps_fit();
    one_instruction();
    first_word_decides();
    guards_apart();
    starts_apart();
    instruction_size();
    line_stands();
    sizes_alike();
}

/// The rule on the entry and the exports refuses no object with guards.
pub fn entry_rule_passes()
    ensures { EntryRulePasses }
{
    starts_are_units();
}

/// The rule on branches and calls refuses no object with guards.
pub fn target_rule_passes()
    ensures { TargetRulePasses }
{
    one_stands();
    reading_law();
    legal_by_cases();
    groups_stand();
    short_jumps_fit();
    starts_are_units();
}

/// The rule on the code's end refuses no object with guards: its last instruction is a branch.
pub fn end_rule_passes()
    ensures { EndRulePasses }
{
    one_stands();
    reading_law();
    legal_by_cases();
    groups_stand();
    short_jumps_fit();
    instruction_size();
    line_stands();
}

/// The rule on jumps refuses no object with guards: outside guards, jumps stand in the units of jumps alone. One that is its unit
/// goes to the unit of what the source's jump went to.
pub fn jump_rule_passes()
    ensures { JumpRulePasses }
{
    one_stands();
    reading_law();
    legal_by_cases();
    groups_stand();
    short_jumps_fit();
    one_instruction();
    first_word_decides();
    guards_apart();
    instruction_size();
    line_stands();
    sizes_alike();
    starts_are_units();
}

/// No rule of the checker refuses an object with guards.
pub fn nothing_refused()
    ensures { NothingRefused }
{
    form_rules_pass();
    entry_rule_passes();
    target_rule_passes();
    end_rule_passes();
    jump_rule_passes();
}

/// Each verdict of an object with guards is an acceptance: what `insert` answers, the checker accepts.
pub fn verdict_accepts()
    ensures { VerdictAccepts }
{
    nothing_refused();
}

/// The definition accepts each object with guards: nothing is refused, and whether a unit starts at a place is known, so there are
/// unit starts with which it is accepted.
pub fn inserted_is_accepted()
    ensures { InsertedIsAccepted }
{
    one_stands();
    reading_law();
    legal_by_cases();
    groups_stand();
    short_jumps_fit();
    one_instruction();
    first_word_decides();
    guards_apart();
    next_start();
    starts_apart();
    nothing_refused();
}

/// An object with guards has no load guard.
pub fn no_load_guards()
    ensures { NoLoadGuards }
{
    one_stands();
    reading_law();
    legal_by_cases();
    groups_stand();
    short_jumps_fit();
    one_instruction();
    first_word_decides();
    guards_apart();
}

/// Whether an instruction of the source starts at a place is decided, for an object that was given guards.
pub fn starts_decided()
    ensures { StartsDecided }
{
    next_start();
    starts_apart();
}

/// Where all of a source is spelled, its lines are its instructions: the words from each line's place on spell the line's
/// instruction, and each start has a line.
pub fn lines_are_spelled()
    ensures { LinesAreSpelled }
{
    starts_apart();
    instruction_size();
    line_stands();
}

/// Nothing is wrong with any line of a source that an object with guards was made from.
pub fn lines_are_clean()
    ensures { LinesAreClean }
{
    reading_law();
    legal_by_cases();
}

/// The code of an object with guards is the words of its pieces, where each word that names code names the unit of what it named.
pub fn code_is_pieces()
    ensures { CodeIsPieces }
{}

/// The words of each group's unit lie one behind another in the code: the place map sends the offset of its first line to the first
/// of them, and the offset behind its last line to what is behind the last. It sends no offset between them.
pub fn groups_have_units()
    ensures { GroupsHaveUnits }
{
    instruction_size();
    line_stands();
    groups_stand();
    sizes_alike();
}

/// The place map sends each offset to a word of the code, or behind its last one.
pub fn places_within()
    ensures { PlacesWithin }
{
    code_is_pieces();
    sizes_alike();
}

/// Each group of several source instructions stores behind one base register. Its unit is a guard that reaches from the cell of the
/// first to the farthest, and then the stores.
pub fn groups_store()
    ensures { GroupsStore }
{
    one_stands();
    reading_law();
    legal_by_cases();
    groups_stand();
    short_jumps_fit();
}
