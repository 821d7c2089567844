//! Verdicts on objects, each worked out by hand from the guards' words and the rules. `small` has objects of a few words,
//! `units` the words of guards and of what they guard, `whole` those rows where guards stand whole or with another relocation,
//! `broken` those where guards break off, and `wide` and `loads` those of the guards that version 2 has beside version 1's.

use code_model::marks::Marks;
use object_parts::parts::{Parts, object_of};
use static_checker::{Verdict, check};
use std::alloc::Global;

mod broken;
mod loads;
mod small;
mod units;
mod whole;
mod wide;

/// What is said of an object: that it is none, how many units it has, or the rule and the place that refuse it.
#[derive(Clone, Copy, PartialEq, Eq, Debug, Drop)]
enum Answer {
    NoObject,
    Units(u16),
    Refused(u8, u16),
}

/// What is said of an application of version 1 with two zeroed bytes of static data.
fn said(alloc: Global, entry: u16, code: &[u16], relocs: &[(u8, u8, u16)]) -> Answer {
    said_with(alloc, 1, entry, code, relocs)
}

/// What is said of an application of a version with two zeroed bytes of static data.
fn said_with(
    alloc: Global,
    version: u8,
    entry: u16,
    code: &[u16],
    relocs: &[(u8, u8, u16)],
) -> Answer {
    let parts = Parts {
        entry,
        code,
        relocs,
        init: &[],
        exports: &[],
    };
    match object_of(alloc, version, &parts) {
        None => Answer::NoObject,
        Some(o) => match check(&o) {
            Verdict::Refused { rule, place } => Answer::Refused(rule, place),
            Verdict::Accepted(marks) => Answer::Units(count(&marks)),
        },
    }
}

/// How many words are marked.
fn count(marks: &Marks) -> u16 {
    let mut count = 0;
    for at in 0..8192u16 {
        if marks.has(2 * at) {
            count = u16::saturating_add(count, 1);
        }
    }
    count
}
