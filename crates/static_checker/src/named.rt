//! The places of an object's code that are named from outside.

ghost use Rattle.std.specs.Prelude.{◌≡◌, ℕ, ◌+◌, ◌*◌, ◌<◌, ◌↔◌, length, IsTrue, MatchResult};
ghost use Rattle.kernel_model.specs.Bitmap.{Has};
ghost use Rattle.code_model.specs.declared.parts.Export.{Export};
ghost use Rattle.kernel_model.specs.declared.kinds.Kind.TheVariants.{App};
ghost use Rattle.static_checker.specs.Marked.{Adds};
ghost use Rattle.static_checker.specs.Places.{IsEntry, AreNamed, ExportsAt};

use crate::marking::mark;
use code_model::marks::Marks;
use code_model::object::Object;
use code_model::parts::Kind;

/// The place of an application's entry and those of the exports.
pub fn named_places(o: &Object) -> Marks
    ensures { AreNamed o.now result }
{
    let mut named = Marks::new();
    mark_entry(o, &mut named);
    for index in 0..o.exports.len() {
        mark_export(o, index, &mut named);
    }
    named
}

/// Marks the entry of an application.
fn mark_entry(o: &Object, named: &mut Marks)
    ensures { Adds named.old named.new (λ k. IsEntry o.now k) }
{
    if o.kind == Kind::App {
        mark(named, usize::from(o.entry / 2));
    }
}

/// Marks the place of one export.
fn mark_export(o: &Object, index: usize, named: &mut Marks)
    requires { index < length o.now.exports }
    ensures { Adds named.old named.new (λ k. ExportsAt o.now.exports index k) }
{
    match o.exports.get(index) {
        Some(export) => mark(named, usize::from(export.offset / 2)),
        None => {}
    }
}
