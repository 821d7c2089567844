//! Rows on the kernel's calls: on threads, time and lines, on mutexes and conditions, and on modules.
//!
//! Nothing but tests stands here. They make public calls of the crates of the kernel, so none of those is proved a second time for
//! them. What is expected is worked out by hand from the rules. `calls` makes a call where it may be made; the memories that the
//! rows begin with are those of `kernel_fixture`, and the texts of modules are written by `object_parts`.
#![tactic(auto)]

#[cfg(test)]
mod calls;
#[cfg(test)]
mod contexts;
#[cfg(test)]
mod ends;
#[cfg(test)]
mod locks;
#[cfg(test)]
mod modules;
#[cfg(test)]
mod threads;
#[cfg(test)]
mod wakes;
