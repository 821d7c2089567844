//! The verdict on an object.

ghost use Rattle.std.specs.Prelude.{ℕ, ◌<◌, ◌↔◌, length, IsTrue};
ghost use Rattle.code_model.specs.declared.verdict.Verdict.{Verdict};
ghost use Rattle.code_model.specs.Verdicts.{IsVerdict, IsAcceptance, SameVerdict, Precedes};
ghost use Rattle.code_model.specs.Dangers.{DangersGuarded};
ghost use Rattle.static_checker.specs.Firsts.{IsLocal, IsLanding, IsChecked, FirstIn};
ghost use Rattle.static_checker.specs.Passed.{IsWhole};

use crate::landing::first_landing;
use crate::marking::offset;
use crate::pass::{Pass, pass_over};
use crate::refusal::Refusal;
use crate::rules::rule_number;
use code_model::object::Object;
use code_model::verdict::Verdict;

/// The verdict on an object: accepted, with the marks of its unit starts, or refused by a rule, 1 to 14, at an offset in
/// bytes, the least place and there the least rule. Where the walk over the instructions stops before the code's end, that
/// place is refused by rule 1, whatever else is refused. It takes no memory.
pub fn check(o: &Object) -> Verdict
    ensures right { IsVerdict o.now result }
    ensures only { (answer : Verdict) → IsVerdict o.now answer → SameVerdict result answer }
    ensures dangerous_is_guarded { IsAcceptance result → DangersGuarded o.now }
{
    verdict(o)
}

/// The verdict.
fn verdict(o: &Object) -> Verdict
    ensures { IsVerdict o.now result }
{
    match pass_over(o) {
        Err(at) => Verdict::Refused {
            rule: 1,
            place: offset(at),
        },
        Ok(pass) => judge(o, pass),
    }
}

/// The verdict on an object whose instructions are all spelled.
fn judge(o: &Object, pass: Pass) -> Verdict
    requires { IsWhole o.now pass }
    ensures { IsVerdict o.now result }
{
    let landing = first_landing(o, &pass);
    match lesser(o, pass.first, landing) {
        Some(refusal) => Verdict::Refused {
            rule: rule_number(refusal.rule),
            place: offset(refusal.at),
        },
        None => Verdict::Accepted(pass.units),
    }
}

/// The lesser of two refusals, by place and then by rule.
fn lesser(o: &Object, local: Option<Refusal>, landing: Option<Refusal>) -> Option<Refusal>
    requires local { FirstIn o.now IsLocal 0 (length o.now.code) local }
    requires landing { FirstIn o.now IsLanding 0 (length o.now.code) landing }
    ensures { FirstIn o.now IsChecked 0 (length o.now.code) result }
{
    match local {
        None => match landing {
            None => None,
            Some(other) => Some(other),
        },
        Some(first) => match landing {
            None => Some(first),
            Some(other) => if precedes(first, other) {
                Some(first)
            } else {
                Some(other)
            },
        },
    }
}

/// Tells whether a refusal comes before another, by place and then by rule.
fn precedes(first: Refusal, other: Refusal) -> bool
    ensures { IsTrue result ↔ Precedes first.at first.rule other.at other.rule }
{
    first.at < other.at
        || (first.at == other.at && rule_number(first.rule) <= rule_number(other.rule))
}
