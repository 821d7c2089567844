//! A node, as definitions: a system of memory, registers, the kernel as lists and the domains that are placed; one step; a run;
//! and what always holds of them. No code stands below them.
//!
//! Read `specs/Systems.antt` first: a system, and what is seen of it.
//! `specs/Entries.antt` has what each entry of the kernel and each
//! vector routine does, `specs/Steps.antt` the six cases of a step,
//! `specs/Runs.antt` a run under a script, `specs/Booting.antt` the
//! system after boot. Then what holds: `specs/Placed.antt`, `specs/Good.antt`
//! and `specs/Instructions.antt` of accepted code and its
//! safe contexts, `specs/Sound.antt` of every system, `specs/Confined.antt` of each record, `specs/Kept.antt` of the other
//! applications, `specs/Spelled.antt` of an instruction's step. `specs/Nodes.antt` says which system a node stands for, and
//! `specs/Laws.antt` states the laws, which crates of laws prove. `specs/Code.antt` and `specs/BootCode.antt` state what the code
//! of a node's step and of its boot stands on: the memory that it holds behind each part.
#![tactic(auto)]

pub mod laws;
