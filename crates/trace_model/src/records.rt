//! What a step is recorded as.

ghost use Rattle.std.specs.Prelude.{◌≡◌};
ghost use Rattle.trace_model.specs.Texts.{is_always_shown, is_fault};

use machine_model::writes::Writes;

/// Whose step it was: a thread of an application, a module, or nobody's.
#[derive(Clone, Copy, PartialEq, Eq, Debug, Drop)]
pub enum Who {
    /// Thread 0 to 3 of application 0 to 7.
    Thread { app: u8, thread: u8 },
    /// Module 0 to 3.
    Module(u8),
    /// Nothing ran.
    Idle,
}

/// Which test failed.
#[derive(Clone, Copy, PartialEq, Eq, Debug, Drop)]
pub enum FaultKind {
    /// A store outside of the region. The value is R4, the address.
    Store,
    /// The stack would leave its bounds. The value is SP.
    Stack,
    /// A computed jump or call to no unit start. The value is R4, the address.
    Jump,
    /// A call of the kernel whose return address is no unit start. The value is that address.
    Return,
    /// A module ran as many instructions in one call as it may. The value is PC.
    Budget,
}

/// A step's record. Steps count from 1; addresses and values are words.
#[derive(Drop)]
pub enum Record {
    /// An instruction: its address, its first word, and the bytes that it wrote.
    Instr {
        step: u32,
        who: Who,
        pc: u16,
        word: u16,
        writes: Writes,
    },
    /// An entry of the kernel, by its address, that has no record of its own.
    Entry {
        step: u32,
        who: Who,
        entry: u16,
    },
    /// A value that was printed.
    Emit {
        step: u32,
        who: Who,
        value: u16,
    },
    /// A thread's end, and whether it was the last of its application.
    Exit {
        step: u32,
        who: Who,
        last: bool,
    },
    /// The end of an application or of a module whose test failed.
    Fault {
        step: u32,
        who: Who,
        kind: FaultKind,
        value: u16,
    },
    /// An interrupt of line 0 to 13 that was accepted: PC as it was pushed, and the four bytes that were written.
    Accept {
        step: u32,
        who: Who,
        line: u8,
        pc: u16,
        writes: Writes,
    },
    /// The routine of a line.
    Vector {
        step: u32,
        line: u8,
    },
    /// A turn of the idle machine.
    IdleTurn {
        step: u32,
    },
}

impl Record {
    /// Whether it is a fault's.
    #[inline(always)]
    pub fn is_fault(&self) -> bool
        ensures { result ≡ is_fault self.now }
    {
        matches!(self, Record::Fault { .. })
    }

    /// Whether it has a line without `--all` too.
    #[inline(always)]
    pub fn is_always_shown(&self) -> bool
        ensures { result ≡ is_always_shown self.now }
    {
        matches!(
            self,
            Record::Emit { .. } | Record::Exit { .. } | Record::Fault { .. }
        )
    }
}
