//! The unit law: an object with guards does what its source does, unit by unit, but for R4, R5 and failed checks.
//!
//! `specs/Placed.antt` says where the unit of a source instruction stands in memory and what the instruction does there,
//! `specs/Checks.antt` which check its unit makes, and `specs/Ends.antt` where running the unit ends. The laws are functions that
//! do nothing. They stand on the rows of the unit table over numbers (`unit_laws`), on the inserter's definitions (`insert_model`)
//! and laws (`insert_laws`), and on the images of placed objects (`load_model`).
#![tactic(auto)]

ghost use Rattle.placed_unit_laws.specs.Ends.{GroupEndsLaw, PushedLaw, SourcePlaceLaw, UnitEndsLaw, UnitStandsLaw};
ghost use Rattle.placed_unit_laws.specs.Given.{RowLaws};

use insert_laws::{
    code_is_pieces, groups_have_units, groups_store, lines_are_clean, places_within,
    relocs_are_pieces, starts_decided,
};
use insert_model::laws::{groups_stand, short_jumps_fit};
use load_model::code_image_stands;
use msp_encode::laws::spelling_spells;
use unit_laws::{
    branch_unit_ends, callee_unit_ends, change_unit_ends, computed_unit_ends, goes_on, goes_to,
    group_unit_ends, growth_unit_ends, jump_unit_ends, own_unit_ends, pc_moves, place_hidden,
    pop_into_unit_ends, pop_unit_ends, return_unit_ends, set_sp_unit_ends, short_jump_unit_ends,
    store_unit_ends,
};

/// The rows of the unit table over numbers, and what is known of spelled instructions and of starts.
fn row_laws()
    ensures { RowLaws }
{
    goes_on();
    goes_to();
    pc_moves();
    own_unit_ends();
    branch_unit_ends();
    jump_unit_ends();
    short_jump_unit_ends();
    computed_unit_ends();
    store_unit_ends();
    change_unit_ends();
    growth_unit_ends();
    callee_unit_ends();
    pop_unit_ends();
    pop_into_unit_ends();
    return_unit_ends();
    set_sp_unit_ends();
    spelling_spells();
    starts_decided();
    places_within();
    short_jumps_fit();
}

/// Where the bytes of an object with guards are its image, the words of each group's unit stand at the unit's address, just
/// before those of the next, and no other unit begins among them.
pub fn unit_stands()
    ensures { UnitStandsLaw }
{
    groups_stand();
    lines_are_clean();
    groups_have_units();
    code_is_pieces();
    relocs_are_pieces();
    code_image_stands();
}

/// Running a unit ends at the entry for its check, with nothing written, exactly where the check fails. Elsewhere it does what the
/// source instruction does, but for R4 and R5, and leads to the next unit, the target's unit or a named entry. A return, a
/// computed jump or a computed call ends at the entry that takes it over, with the target in R4.
pub fn unit_ends()
    ensures { UnitEndsLaw }
{
    row_laws();
    unit_stands();
}

/// Running the unit of a group of stores ends at the store fault, with nothing written, exactly where an address that its guard
/// tests is outside of the region. Elsewhere it does what the source instructions do, one after another, but for R4 and R5, and
/// leads to the next unit.
pub fn group_ends()
    ensures { GroupEndsLaw }
{
    row_laws();
    group_unit_ends();
    groups_store();
    unit_stands();
}

/// What a source call writes is the address of the next unit, where SP then points. By `unit_ends` its unit writes the same where
/// its check passes.
pub fn call_pushes()
    ensures { PushedLaw }
{
    unit_stands();
}

/// A source instruction that leads to the next one, and pushes no address, does the same wherever it stands, but for PC.
pub fn source_place_hidden()
    ensures { SourcePlaceLaw }
{
    lines_are_clean();
    place_hidden();
}
