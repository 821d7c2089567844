//! The script of the lines that were read so far.

ghost use Rattle.std.specs.Prelude.{◌≡◌, ◌==◌, ◌≤◌, ℕ, Bool, false, Option, Some, None};
ghost use Rattle.std.specs.Option.{ForSome};
ghost use Rattle.trace_model.specs.Grammar.{last_step, has_pick_at, is_pick, may_follow, with_every, with_at, with_mix, empty_script};
ghost use Rattle.read_script.specs.Picked.{is_step};

use std::alloc::{AllocError, Global};
use trace_model::scripts::{At, AtKind, Ats, Every, Everys, Script};

/// Why a line wasn't taken.
#[derive(Clone, Copy, Debug, Drop)]
pub(crate) enum Stop {
    /// The line breaks a rule.
    Rule,
    /// There was no memory.
    Memory,
}

impl From<AllocError> for Stop {
    ghost use Rattle.read_script.specs.declared.draft.Stop.TheVariants.{Memory};

    ghost from_gives = { λ _ e. e ≡ Memory };

    fn from(_e: AllocError) -> Stop {
        Stop::Memory
    }
}

/// Whether an `at` line is a pick.
fn is_a_pick(what: AtKind) -> bool
    ensures { result ≡ is_pick what }
{
    matches!(what, AtKind::Pick(_))
}

/// The script of the lines so far.
#[derive(Drop)]
pub(crate) struct Draft {
    pub(crate) script: Script,
    /// The step of the last `at` line, or 0.
    last: u32,
    /// The step of the last pick.
    picked: Option<u32>,
    ghost last_is: { last ≡ last_step script.ats },
    ghost picked_is_low: { ForSome picked (λ step. step ≤ last) },
    ghost picked_is: { (step : ℕ) → last ≤ step → has_pick_at step script.ats ≡ is_step picked step },
}

impl Draft {
    ghost use Rattle.read_script.specs.Given.{Gives};

    /// No lines.
    pub(crate) fn new(alloc: Global) -> Draft
        ensures { result.script ≡ empty_script }
    {
        Draft {
            script: Script {
                ats: Ats::new(alloc),
                everys: Everys::new(),
                mix: None,
            },
            last: 0,
            picked: None,
        }
    }

    /// With an `every` line.
    #[tactic(auto, unfolding(trace_model::specs::Grammar::with_every))]
    pub(crate) fn put_every(&mut self, every: Every) -> Result<(), Stop>
        ensures { Gives result (with_every self.old.script every) self.new.script }
    {
        if self.script.everys.is_full() {
            return Err(Stop::Rule);
        }
        self.script.everys.push(every);
        Ok(())
    }

    /// Whether an `at` line may stand here: its step doesn't fall, and has no second pick.
    #[tactic(auto, unfolding(trace_model::specs::Grammar::may_follow))]
    fn takes(&self, at: At) -> bool
        ensures { result ≡ may_follow self.now.script.ats at }
    {
        at.step >= self.last && !(is_a_pick(at.what) && self.picked == Some(at.step))
    }

    /// With an `at` line.
    #[tactic(auto, unfolding(trace_model::specs::Grammar::with_at))]
    pub(crate) fn put_at(&mut self, at: At) -> Result<(), Stop>
        ensures { Gives result (with_at self.old.script at) self.new.script }
    {
        if !self.takes(at) {
            return Err(Stop::Rule);
        }
        self.script.ats.push(at)?;
        self.last = at.step;
        if is_a_pick(at.what) {
            self.picked = Some(at.step);
        }
        Ok(())
    }

    /// With a `mix` line.
    #[tactic(auto, unfolding(trace_model::specs::Grammar::with_mix))]
    pub(crate) fn put_mix(&mut self, number: u32) -> Result<(), Stop>
        ensures { Gives result (with_mix self.old.script number) self.new.script }
    {
        if self.script.mix.is_some() {
            return Err(Stop::Rule);
        }
        self.script.mix = Some(number);
        Ok(())
    }
}
