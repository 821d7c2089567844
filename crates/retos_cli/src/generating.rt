//! The command `gen`.

ghost use Rattle.std.specs.Prelude.{◌≡◌, ℕ, Err, IfOk};
ghost use Rattle.edge_io.specs.Known.{MayCreate};
ghost use Rattle.insert_model.specs.declared.fault.InsertKind.{InsertKind as Kind};
ghost use Rattle.insert_model.specs.Faults.{IsFault};
ghost use Rattle.node_model.specs.Booting.{Refusal, booted};
ghost use Rattle.retos_cli.specs.Ends.{Ended};
ghost use Rattle.retos_cli.specs.Lines.{generated_line};
ghost use Rattle.retos_cli.specs.Generating.{IsGuardedAlone, HasRun, IsMade};
ghost use Rattle.retos_cli.specs.declared.command.Command.TheVariants.{Gen};

use super::counted::{count_units, count_words};
use super::lines::of_generated;
use super::outcome::{Outcome, Stop};
use super::running::{faults_of, no_script};
use super::writing::put_lines;
use check_inserter::insert;
use code_model::marks::Marks;
use code_model::object::Object;
use edge_io::folder::Folder;
use edge_io::name::Name;
use edge_io::null_sink::NullSink;
use edge_io::sink::Sink;
use gen_laws::{has_room, never_refused};
use insert_model::fault::InsertFault;
use item_lists::lists::Bytes;
use line_text::line::Line;
use object_form::writing::write_object;
use object_gen::generate;
use retos_node::{BootFault, End, Node, ObjectList, Show};
use static_checker::{Verdict, check};
use std::alloc::{AllocError, Global};

/// For how many steps a generated object is run.
const STEPS: u32 = 100_000;

/// A generated object before it is written.
#[derive(Drop)]
pub struct Made {
    /// The code words of its source.
    pub source_words: u32,
    /// It alone, with its guards and the marks of its units.
    pub objects: ObjectList,
    /// Its text.
    pub text: Bytes,
    /// How its run ended.
    pub end: End,
}

/// Makes the object of a number, runs it, writes it under the name, and prints its line and the last line of the run.
pub fn generate_file<F: Folder, O: Sink>(
    alloc: Global,
    files: &mut F,
    seed: u32,
    to: &Name,
    out: &mut O,
) -> Outcome
    requires { MayCreate (F.state files.old).created to.now }
    ensures { Ended (Gen seed to.now) (F.state files.old) (F.state files.new) (O.state out.old) (O.state out.new) result }
{
    match make(alloc, seed) {
        Ok(made) => put_made(files, seed, to, &made, out),
        Err(_) => Outcome::Stopped(Stop::NoMemory),
    }
}

/// Writes what was made.
fn put_made<F: Folder, O: Sink>(
    files: &mut F,
    seed: u32,
    to: &Name,
    made: &Made,
    out: &mut O,
) -> Outcome
    requires may_create { MayCreate (F.state files.old).created to.now }
    requires made { IsMade seed made.now }
    ensures { Ended (Gen seed to.now) (F.state files.old) (F.state files.new) (O.state out.old) (O.state out.new) result }
{
    let first = line_for(
        seed,
        made.source_words,
        made.objects.object(0),
        made.objects.marks(0),
    );
    let last = made.end.line();
    match put_lines(files, to, made.text.as_slice(), &first, &last, out) {
        Ok(()) => Outcome::Done(faults_of(made.end) > 0),
        Err(_) => Outcome::WriteFault,
    }
}

/// The line of an object with these units, whose source has so many code words.
#[tactic(auto, unfolding(crate::specs::Lines::generated_line))]
fn line_for(seed: u32, source_words: u32, o: &Object, units: &Marks) -> Line
    ensures { result ≡ generated_line seed source_words o.now units.now }
{
    of_generated(seed, source_words, count_words(o), count_units(o, units))
}

/// The object of a number, with its text and the end of its run.
fn make(alloc: Global, seed: u32) -> Result<Made, AllocError>
    ensures { IfOk result (λ made. IsMade seed made) }
{
    never_refused();
    has_room();
    let source = generate(alloc, seed)?;
    let objects = guarded(alloc, &source)?;
    let text = write_object(alloc, objects.object(0))?;
    let end = run_alone(alloc, &objects)?;
    Ok(Made {
        source_words: source.code.len() as u32,
        objects,
        text,
        end,
    })
}

/// A source object with its guards, in a list of its own.
fn guarded(alloc: Global, source: &Object) -> Result<ObjectList, AllocError>
    requires { (k : Kind) (x : ℕ) → IsFault source.now k x → ⊥ }
    ensures { IfOk result (λ objects. IsGuardedAlone source.now objects) }
{
    let object = match insert(alloc, source) {
        Ok(object) => object,
        Err(InsertFault::Memory) => return Err(AllocError),
        Err(InsertFault::At { .. }) => unreachable!(),
    };
    match check(&object) {
        Verdict::Accepted(marks) => {
            marks.is_bitmap();
            let mut objects = ObjectList::new(alloc);
            objects.push(object, marks)?;
            Ok(objects)
        }
        Verdict::Refused { .. } => unreachable!(),
    }
}

/// How the run of objects that have room ends.
fn run_alone(alloc: Global, objects: &ObjectList) -> Result<End, AllocError>
    requires { (e : Refusal) → booted objects.now ≡ Err e → ⊥ }
    ensures { IfOk result (λ end. HasRun objects.now end) }
{
    let show = Show {
        all: false,
        tail: false,
    };
    let mut node = match Node::boot(alloc, objects, show) {
        Ok(node) => node,
        Err(BootFault::Memory) => return Err(AllocError),
        Err(BootFault::NoRoom { .. }) => unreachable!(),
    };
    match node.run(&no_script(alloc), STEPS, objects, &mut NullSink) {
        Ok(end) => Ok(end),
        Err(_) => unreachable!(),
    }
}
