//! The second pass, over the places that are gone to: targets of jumps, branches and calls, the entry and the exports.
//!
//! It decodes again what the first pass marked as a jump, a branch or a call, and nothing else.

ghost use Rattle.std.specs.Prelude.{◌≡◌, ℕ, ◌+◌, ◌<◌, ◌≤◌, ◌↔◌, IsTrue, length};
ghost use Rattle.kernel_model.specs.Bitmap.{Has};
ghost use Rattle.code_model.specs.Guards.{UnitStart, AreUnits};
ghost use Rattle.code_model.specs.Rules.{IsNamed, Refuses};
ghost use Rattle.code_model.specs.declared.rules.Rule.{Rule};
ghost use Rattle.static_checker.specs.Cursors.{IsCursor};
ghost use Rattle.static_checker.specs.Firsts.{IsLanding, FirstIn, FirstBelow};
ghost use Rattle.static_checker.specs.Passed.{IsWhole};
ghost use Rattle.static_checker.specs.CodeUnits.{TransferAt};
ghost use Rattle.static_checker.specs.Places.{AreNamed};

use crate::cursor::{Cursor, at_start, go_to};
use crate::marking::is_marked;
use crate::named::named_places;
use crate::pass::Pass;
use crate::refusal::Refusal;
use crate::spot::spot_at;
use crate::targets::{jump_misses_unit, transfer_misses_target};
use code_model::marks::Marks;
use code_model::object::Object;
use code_model::rules::Rule;

/// The first refusal by the rules on targets, the entry and the exports. None exactly where there is none.
pub fn first_landing(o: &Object, pass: &Pass) -> Option<Refusal>
    requires { IsWhole o.now pass.now }
    ensures { FirstIn o.now IsLanding 0 (length o.now.code) result }
{
    let named = named_places(o);
    let mut cursor = at_start();
    for at in 0..o.code.len() {
        cursor = go_to(o, cursor, at);
        match landing_rule(o, cursor, pass, &named, at) {
            Some(rule) => return Some(Refusal { at, rule }),
            None => {}
        }
    }
    None
}

/// The first of these rules that refuses at a place. None exactly where none does.
fn landing_rule(o: &Object, cursor: Cursor, pass: &Pass, named: &Marks, at: usize) -> Option<Rule>
    requires cursor { IsCursor o.now.relocs cursor }
    requires order { cursor.at ≤ at }
    requires within { at < length o.now.code }
    requires whole { IsWhole o.now pass.now }
    requires named { AreNamed o.now named.now }
    ensures { FirstBelow o.now IsLanding at 15 result }
{
    match target_rule(o, cursor, pass, at) {
        Some(rule) => Some(rule),
        None => if is_no_unit(o, pass, named, at) {
            Some(Rule::Entry)
        } else {
            None
        },
    }
}

/// Tells whether a place is the entry or an export's and no unit start.
fn is_no_unit(o: &Object, pass: &Pass, named: &Marks, at: usize) -> bool
    requires within { at < length o.now.code }
    requires whole { IsWhole o.now pass.now }
    requires named { AreNamed o.now named.now }
    ensures { IsTrue result ↔ (IsNamed o.now at × (UnitStart o.now at → ⊥)) }
{
    is_marked(named, at) && !is_marked(&pass.units, at)
}

/// The rule on targets that refuses at a place. None exactly where none does.
fn target_rule(o: &Object, cursor: Cursor, pass: &Pass, at: usize) -> Option<Rule>
    requires cursor { IsCursor o.now.relocs cursor }
    requires order { cursor.at ≤ at }
    requires within { at < length o.now.code }
    requires whole { IsWhole o.now pass.now }
    ensures { FirstBelow o.now IsLanding at 14 result }
{
    if is_marked(&pass.transfers, at) {
        transfer_rule(o, cursor, &pass.units, at)
    } else {
        None
    }
}

/// The rule on targets that refuses at a place where a jump, a branch or a call stands. None exactly where none does.
fn transfer_rule(o: &Object, cursor: Cursor, units: &Marks, at: usize) -> Option<Rule>
    requires cursor { IsCursor o.now.relocs cursor }
    requires order { cursor.at ≤ at }
    requires units { AreUnits o.now units.now }
    requires transfer { TransferAt o.now at }
    ensures { FirstBelow o.now IsLanding at 14 result }
{
    match spot_at(&o.code, at) {
        Some(spot) => {
            if transfer_misses_target(o, cursor, units, at, spot.instr) {
                Some(Rule::Target)
            } else if jump_misses_unit(o, units, at, spot.instr) {
                Some(Rule::Jump)
            } else {
                None
            }
        }
        None => None,
    }
}
