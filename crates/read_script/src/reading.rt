//! A line, and all lines of a text.

ghost use Rattle.std.specs.Prelude.{◌≡◌, ◌≤◌, length, List, ℕ, IfOk};
ghost use Rattle.trace_model.specs.Scripts.{IsScript};
ghost use Rattle.trace_model.specs.Grammar.{words_of, with_statement, with_line, GivesScript, IsOnlyScript};
ghost use Rattle.read_script.specs.Given.{Gives};

use crate::draft::{Draft, Stop};
use crate::statements::{at, every, mix};
use crate::text::{all_ascii, cut_line, first, next_word};
use std::alloc::Global;
use trace_model::script_laws::{texts_give_one_script, texts_give_scripts};
use trace_model::scripts::{Script, ScriptFault};

/// With what stands behind a line's first word.
#[tactic(auto, unfolding(trace_model::specs::Grammar::with_statement))]
fn put_statement(draft: &mut Draft, word: &[u8], rest: &[u8]) -> Result<(), Stop>
    ensures { Gives result (with_statement draft.old.script word.now (words_of rest.now)) draft.new.script }
{
    if first(word) == b'#' {
        Ok(())
    } else if word == b"every".as_slice() {
        draft.put_every(every(rest).ok_or(Stop::Rule)?)
    } else if word == b"at".as_slice() {
        draft.put_at(at(rest).ok_or(Stop::Rule)?)
    } else if word == b"mix".as_slice() {
        draft.put_mix(mix(rest).ok_or(Stop::Rule)?)
    } else {
        Err(Stop::Rule)
    }
}

/// With a line.
#[tactic(auto, unfolding(trace_model::specs::Grammar::with_line))]
fn put_line(draft: &mut Draft, line: &[u8]) -> Result<(), Stop>
    ensures { Gives result (with_line draft.old.script line.now) draft.new.script }
{
    if !all_ascii(line) {
        return Err(Stop::Rule);
    }
    match next_word(line) {
        None => Ok(()),
        Some((word, rest)) => put_statement(draft, word, rest),
    }
}

/// The script of a text of at most 1,048,576 bytes, or exactly its first line that breaks a rule. The
/// text is gone over once.
#[tactic(auto, unfolding(trace_model::specs::Grammar::script_of))]
pub fn read_script(alloc: Global, text: &[u8]) -> Result<Script, ScriptFault>
    requires { length text.now ≤ 1048576 }
    ensures right { GivesScript text.now result }
    ensures only { IsOnlyScript text.now result }
    ensures rules { IfOk result IsScript }
{
    texts_give_scripts();
    texts_give_one_script();
    let mut draft = Draft::new(alloc);
    let mut line: u32 = 0;
    let mut rest = text;
    'lines: while !rest.is_empty() {
        let (bytes, behind) = cut_line(rest);
        line += 1;
        match put_line(&mut draft, bytes) {
            Ok(()) => {}
            Err(Stop::Rule) => return Err(ScriptFault::At { line }),
            Err(Stop::Memory) => return Err(ScriptFault::Memory),
        }
        rest = behind;
    }
    Ok(draft.script)
}
