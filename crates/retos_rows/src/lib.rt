//! Rows: commands over files and streams in memory, with what each has to leave on out and on err, and its status.
//!
//! Nothing but tests stands here. They call `retos` (`retos_cli`) alone, so that crate isn't proved a second time for them.
//! `command_rows` has words, refusals and failing devices, `check_rows`, `solo_rows`, `run_rows`, `asm_rows`, `insert_rows` and
//! `gen_rows` a command each, `tail_rows` the option `--tail`, `attack_rows` programs that leave their stack, `system_rows` the
//! system's own files. The others have runs of nodes: `thread_rows` who runs next, `code_rows` the codes of calls, `jump_rows`
//! addresses that are jumped to, `line_rows` interrupts and picks, `lock_rows` mutexes and conditions, `module_rows` modules,
//! `clock_rows` a node of two applications; `damage_rows` damaged objects and failing devices; `wide_rows` the guards of version 2.
//! What they leave comes from outside of the program.
//!
//! A test is a table of rows and a loop over it, or a call: what a row does stands in a function of its own. The check of a
//! function takes long where many values that have to be let go live beside many ways out, so each has few of both.
#![tactic(auto)]

#[cfg(test)]
mod asm_rows;
#[cfg(test)]
mod attack_rows;
#[cfg(test)]
mod check_rows;
#[cfg(test)]
mod clock_rows;
#[cfg(test)]
mod code_rows;
#[cfg(test)]
mod command_rows;
#[cfg(test)]
mod damage_rows;
#[cfg(test)]
mod gen_rows;
#[cfg(test)]
mod insert_rows;
#[cfg(test)]
mod jump_rows;
#[cfg(test)]
mod line_rows;
#[cfg(test)]
mod lock_rows;
#[cfg(test)]
mod module_rows;
#[cfg(test)]
mod run_rows;
#[cfg(test)]
mod solo_rows;
#[cfg(test)]
mod system_rows;
#[cfg(test)]
mod tail_rows;
#[cfg(test)]
mod test_nodes;
#[cfg(test)]
mod test_support;
#[cfg(test)]
mod thread_rows;
#[cfg(test)]
mod wide_rows;
