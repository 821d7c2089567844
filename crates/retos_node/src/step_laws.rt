//! The laws of a step, without their premises, as its code uses them. Each is a function that does nothing.

ghost use Rattle.node_laws.specs.Facts.{Given};
ghost use Rattle.node_model.specs.Code.{
  AcceptanceStandsLaw,
  AcceptedWritesLaw,
  DoneWritesLaw,
  InstructionStandsLaw,
  StandsLaw,
};
ghost use Rattle.node_model.specs.Laws.{StepLaw};
ghost use Rattle.node_model.specs.Nodes.{NextLaw};
ghost use Rattle.trace_model.specs.declared.scripts.Script.{Script};

use confinement_laws::{good_above_is_at_entry, good_fetches, instruction_leads, stack_stays};
use load_model::code_image_stands;
use machine_laws::instruction_writes_bytes;
use node_laws::code::{acceptance_stands, instruction_stands, step_stands};
use node_laws::each_step_is_safe;
use node_model::laws::fetched_where_spelled;

/// The laws of other crates that those of a step take as premises.
fn premises()
    ensures { Given }
{
    code_image_stands();
    fetched_where_spelled();
    instruction_writes_bytes();
    instruction_leads();
    stack_stays();
    good_fetches();
    good_above_is_at_entry();
}

/// A step from a sound system leads to a sound one.
pub fn steps_are_safe()
    ensures { StepLaw }
{
    premises();
    each_step_is_safe();
}

/// Behind an instruction memory, registers and record are those of the next system.
pub fn instruction_law()
    ensures written { DoneWritesLaw }
    ensures stands { InstructionStandsLaw }
{
    premises();
    instruction_stands();
}

/// So they are behind an acceptance.
pub fn acceptance_law()
    ensures written { AcceptedWritesLaw }
    ensures stands { AcceptanceStandsLaw }
{
    premises();
    acceptance_stands();
}

/// Then the node stands for the system behind the step.
pub fn step_law()
    ensures { StandsLaw }
{
    premises();
    step_stands();
}

/// Each step of a run from a sound system is sound.
pub fn next_law()
    ensures { (t : Script) → NextLaw t }
{
    premises();
    each_step_is_safe();
}
