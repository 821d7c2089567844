//! The parts of a line.

ghost use Rattle.std.specs.Prelude.{◌≡◌, ◌+◌, ◌≤◌, ◌++◌, length, IsTrue};
ghost use Rattle.trace_model.specs.Texts.{who_text, kind_text, entry_name, write_text, writes_text, head};
ghost use Rattle.trace_print.specs.Named.{has_name};

use kernel_model::entries::{
    BROADCAST, CALLS, GOES, IDENTITY, LEAVE, LINE, LOCK, MODULE_CALL, PRIORITY, SIGNAL, SLEEP,
    SPAWN, TICKS, UNLOCK, WAIT, YIELD,
};
use line_text::line::Line as Text;
use machine_model::writes::Writes;
use trace_model::records::{FaultKind, Who};

/// The beginning of a line: the number of the step, and whose it was.
pub(crate) fn head(step: u32, who: Who) -> Text
    ensures text { result ≡ head step who }
    ensures size { length result ≤ 35 }
{
    let mut line = Text::new();
    line.push_decimal(step);
    line.push(b' ');
    push_who(&mut line, who);
    line.push(b' ');
    line
}

fn push_who(line: &mut Text, who: Who)
    requires { length line.old ≤ 11 }
    ensures text { line.new ≡ line.old ++ who_text who }
    ensures size { length line.new ≤ length line.old + 23 }
{
    match who {
        Who::Thread { app, thread } => {
            line.push_text(b"a");
            line.push_decimal(app as u32);
            line.push_text(b".t");
            line.push_decimal(thread as u32);
        }
        Who::Module(number) => {
            line.push_text(b"m");
            line.push_decimal(number as u32);
        }
        Who::Idle => line.push_text(b"idle"),
    }
}

/// The word of a test that failed.
pub(crate) fn kind_word(kind: FaultKind) -> &'static [u8]
    ensures word { result.now ≡ kind_text kind }
    ensures size { length result.now ≤ 6 }
{
    match kind {
        FaultKind::Store => b"store",
        FaultKind::Stack => b"stack",
        FaultKind::Jump => b"jump",
        FaultKind::Return => b"return",
        FaultKind::Budget => b"budget",
    }
}

/// The name of an entry of the kernel, by its address.
pub(crate) fn entry_word(entry: u16) -> &'static [u8]
    requires { IsTrue (has_name entry) }
    ensures word { result.now ≡ entry_name entry }
    ensures size { length result.now ≤ 9 }
{
    match entry {
        GOES => b"jump",
        CALLS => b"call",
        SPAWN => b"spawn",
        YIELD => b"yield",
        SLEEP => b"sleep",
        PRIORITY => b"priority",
        IDENTITY => b"self",
        TICKS => b"ticks",
        LOCK => b"lock",
        UNLOCK => b"unlock",
        WAIT => b"wait",
        SIGNAL => b"signal",
        BROADCAST => b"broadcast",
        LINE => b"line",
        MODULE_CALL => b"module",
        LEAVE => b"leave",
        _ => unreachable!(),
    }
}

/// Appends each written byte, a space before it: address, colon, byte.
pub(crate) fn push_writes(line: &mut Text, writes: &Writes)
    requires { length line.old ≤ 63 }
    ensures text { line.new ≡ line.old ++ writes_text writes.now }
    ensures size { length line.new ≤ length line.old + 32 }
{
    writes.is_rising();
    let mut at = 0;
    while let Some((address, byte)) = writes.get(at) {
        push_write(line, address, byte);
        at += 1;
    }
}

fn push_write(line: &mut Text, address: u16, byte: u8)
    requires { length line.old ≤ 88 }
    ensures text { line.new ≡ line.old ++ write_text (address, byte) }
    ensures size { length line.new ≡ length line.old + 8 }
{
    line.push(b' ');
    line.push_word(address);
    line.push(b':');
    line.push_byte(byte);
}
