//! What the code of a node's step stands on: the memory that it holds, behind each part of a step.

ghost use Rattle.node_laws.specs.Facts.{Given};
ghost use Rattle.node_model.specs.BootCode.{LoadingSettledLaw};
ghost use Rattle.node_model.specs.Code.{
  AcceptanceStandsLaw,
  AcceptedWritesLaw,
  DoneWritesLaw,
  InstructionStandsLaw,
  KnownLaw,
  LocksLaw,
  NoneRaisedLaw,
  OwnMarkLaw,
  OwnedLaw,
  RaiseLaw,
  SettledLaw,
  ShownLaw,
  StandsLaw,
  TurnStandsLaw,
};

/// A node's memory is what is seen of each system that it stands for, and is settled; so is that of a system that is being loaded.
pub fn memory_is_shown()
    ensures shown { ShownLaw }
    ensures settled { SettledLaw }
    ensures loading { LoadingSettledLaw }
{}

/// The state of each module's row is known.
pub fn modules_are_known()
    ensures { KnownLaw }
{}

/// The marks of the domain that runs are those of the bitmap.
pub fn own_marks_are_seen()
    ensures { OwnMarkLaw }
{}

/// What is promised of owners and waiters holds at each sound system.
pub fn locks_are_held()
    ensures { LocksLaw }
{}

/// The objects at the places of the rows stay, as long as the domains do.
pub fn owned_stay()
    ensures { OwnedLaw }
{}

/// Behind raised lines memory is that of the system with its lines raised; where none is raised nothing changes.
pub fn raised_is_shown()
    ensures raise { RaiseLaw }
    ensures none { NoneRaisedLaw }
{}

/// Behind a turn memory, registers and record are those of the next system.
pub fn turn_stands()
    ensures { TurnStandsLaw }
{}

/// So they are behind an instruction; before it is counted memory has the kernel as it was.
pub fn instruction_stands()
    ensures stands { Given → InstructionStandsLaw }
    ensures writes { Given → DoneWritesLaw }
{}

/// So they are behind an acceptance; before its line is taken memory has the kernel as it was.
pub fn acceptance_stands()
    ensures stands { Given → AcceptanceStandsLaw }
    ensures writes { Given → AcceptedWritesLaw }
{}

/// So a node whose parts are those of the next system stands for it, and all that a step promises holds.
pub fn step_stands()
    ensures { Given → StandsLaw }
{}
