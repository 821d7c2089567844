//! Lists of accepted objects for the tests.

ghost use Rattle.std.specs.Prelude.{◌≤◌, length, IfOk};
ghost use Rattle.code_model.specs.Verdicts.{IsAccepted};

use check_inserter::insert;
use code_model::object::Object;
use msp_asm::assemble;
use retos_node::ObjectList;
use retos_node::objects::MOST_OBJECTS;
use static_checker::{Marks, Verdict, check};
use std::alloc::Global;
use std::test::Fail;

/// An object with the marks that it is accepted with.
fn accepted(object: Object) -> Result<(Object, Marks), Fail>
    ensures { IfOk result (λ x. IsAccepted x.0 x.1) }
{
    match check(&object) {
        Verdict::Accepted(marks) => Ok((object, marks)),
        Verdict::Refused { .. } => Err(Fail::from("an accepted object")),
    }
}

/// Appends an object, if it is accepted and there is room for it.
fn add(objects: &mut ObjectList, object: Object) -> Result<(), Fail> {
    let (object, marks) = accepted(object)?;
    if objects.len() >= MOST_OBJECTS {
        return Err(Fail::from("room for an object"));
    }
    Ok(objects.push(object, marks)?)
}

/// Appends the object of a source text with its guards.
pub fn add_source(alloc: Global, objects: &mut ObjectList, source: &[u8]) -> Result<(), Fail>
    requires { length source.now ≤ 1048576 }
{
    let plain = assemble(alloc, source)?;
    let object = insert(alloc, &plain)?;
    add(objects, object)
}
