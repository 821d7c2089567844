//! What a script gives for the next step, without a search.
//!
//! The steps of a script's `at` lines never fall, so a place moves along them, and the next step for which a line stands is kept:
//! at all others a step costs a compare, and one more number is drawn where the script has a `mix` line.

ghost use Rattle.std.specs.Prelude.{◌≡◌, ◌≢◌, ℕ, ◌<◌, ◌≤◌, ◌+◌, ◌-◌, ◌*◌, ◌/◌, ◌%◌, ◌^◌, length, nat_lt, bit_or};
ghost use Rattle.std.specs.List.{list_any};
ghost use Rattle.node_model.specs.Nodes.{most_steps};
ghost use Rattle.trace_model.specs.Draws.{kind_mask, every_mask, mix_pick, raised_at, pick_at};
ghost use Rattle.trace_model.specs.Scripts.{IsScript, IsKind, IsEvery};
ghost use Rattle.script_schedule.specs.Readiness.{IsReady, IsDrawn, ArePassed, AreAhead, or_kind_pick, AreAtLines, AreEveryLines};

use trace_model::scripts::{AtKind, Every, Script};

/// The factor of a draw.
const DRAW_FACTOR: u64 = 1_664_525;

/// What is added in a draw.
const DRAW_SUM: u64 = 1_013_904_223;

/// How many numbers 32 bits have.
const DRAW_RANGE: u64 = 4_294_967_296;

/// A pick is the upper half of the number that was drawn.
const PICK_UNIT: u32 = 65536;

/// A step behind all that a script names.
const NEVER: u32 = u32::MAX;

/// What a script gives for a step: the mask of the lines that it raises, and the pick.
#[derive(Clone, Copy, Drop)]
pub struct Stimulus {
    pub raised: u16,
    pub pick: Option<u32>,
}

/// How far a script has come: the place of the first `at` line of a later step, a step before which no line stands, and the last
/// number that was drawn.
#[derive(Drop)]
pub struct Schedule {
    place: usize,
    due: u32,
    draw: u32,
}

/// What the `at` lines of a step give, the place behind them, and the step of the line there.
#[derive(Clone, Copy, Drop)]
struct AtLines {
    raised: u16,
    pick: Option<u32>,
    place: usize,
    due: u32,
}

/// What the `every` lines of a step give, and the next step for which one stands.
#[derive(Clone, Copy, Drop)]
struct EveryLines {
    raised: u16,
    due: u32,
}

impl Schedule {
    /// That of a script before the first step.
    pub fn new(script: &Script) -> Schedule
        requires { IsScript script.now }
        ensures { IsReady script.now 0 result }
    {
        Schedule {
            place: 0,
            due: 1,
            draw: script.mix.unwrap_or(0),
        }
    }

    /// What the script gives for the step behind so many.
    #[inline(always)]
    pub fn next(&mut self, script: &Script, made: u32) -> Stimulus
        requires few { made < most_steps }
        requires script { IsScript script.now }
        requires ready { IsReady script.now made self.old }
        ensures ready { IsReady script.now (made + 1) self.new }
        ensures raised { result.raised ≡ raised_at script.now (made + 1) }
        ensures pick { result.pick ≡ pick_at script.now (made + 1) }
    {
        let step = made + 1;
        let drawn = self.draw_next(script.mix);
        if step < self.due {
            return Stimulus {
                raised: 0,
                pick: drawn,
            };
        }
        self.at_due(script, step, drawn)
    }

    /// Whether an `at` line of a later step is left.
    pub fn has_later(&self, script: &Script, made: u32) -> bool
        requires { IsReady script.now made self.now }
        ensures { result ≡ list_any (λ a. nat_lt made a.step) (script.now).ats }
    {
        let _ = made;
        self.place < script.ats.len()
    }

    /// The pick that is drawn for the next step, if there is a `mix` line.
    #[inline(always)]
    fn draw_next(&mut self, mix: Option<u32>) -> Option<u32>
        ensures drawn { (s : ℕ) → IsDrawn mix s (self.old).draw → IsDrawn mix (s + 1) (self.new).draw × (result ≡ mix_pick mix (s + 1)) }
        ensures same { ((self.new).place ≡ (self.old).place) × ((self.new).due ≡ (self.old).due) }
    {
        match mix {
            Some(_) => {
                self.draw = draw_after(self.draw);
                Some(self.draw / PICK_UNIT)
            }
            None => None,
        }
    }

    /// What the script gives for a step that a line may stand for, with this pick if it has none of its own.
    #[cold]
    #[inline(never)]
    fn at_due(&mut self, script: &Script, step: u32, drawn: Option<u32>) -> Stimulus
        requires step { (1 ≤ step) × (step ≤ most_steps) }
        requires script { IsScript script.now }
        requires within { (self.old).place ≤ length (script.now).ats }
        requires passed { ArePassed (script.now).ats (self.old).place (step - 1) }
        requires ahead { AreAhead (script.now).ats (self.old).place step }
        requires draw { IsDrawn (script.now).mix step (self.old).draw }
        requires drawn { drawn ≡ mix_pick (script.now).mix step }
        ensures ready { IsReady script.now step self.new }
        ensures raised { result.raised ≡ raised_at script.now step }
        ensures pick { result.pick ≡ pick_at script.now step }
    {
        let ats = at_lines(script, self.place, step);
        let everys = every_lines(script, step);
        self.place = ats.place;
        self.due = ats.due.min(everys.due);
        Stimulus {
            raised: ats.raised | everys.raised,
            pick: ats.pick.or(drawn),
        }
    }
}

/// The number that is drawn behind another.
fn draw_after(draw: u32) -> u32
    ensures { result ≡ (1664525 * draw + 1013904223) % 2 ^ 32 }
{
    ((DRAW_FACTOR * draw as u64 + DRAW_SUM) % DRAW_RANGE) as u32
}

/// The mask of a line.
fn mask_of(line: u8) -> u16
    requires { line ≤ 13 }
    ensures { result ≡ 2 ^ line }
{
    1 << line
}

/// What the `at` lines give for a step, where this place is behind those of the steps before it.
fn at_lines(script: &Script, from: usize, step: u32) -> AtLines
    requires step { (1 ≤ step) × (step ≤ most_steps) }
    requires script { IsScript script.now }
    requires within { from ≤ length (script.now).ats }
    requires passed { ArePassed (script.now).ats from (step - 1) }
    requires ahead { AreAhead (script.now).ats from step }
    ensures { AreAtLines (script.now).ats step result }
{
    let mut lines = AtLines {
        raised: 0,
        pick: None,
        place: from,
        due: NEVER,
    };
    let count = script.ats.len();
    while lines.place < count {
        let Some(at) = script.ats.get(lines.place) else {
            return lines;
        };
        if at.step > step {
            lines.due = at.step;
            return lines;
        }
        lines.take(at.what);
    }
    lines
}

impl AtLines {
    /// Takes what a line does, and goes on to the next.
    fn take(&mut self, what: AtKind)
        requires kind { IsKind what }
        requires place { (self.old).place < usize.MAX }
        ensures raised { (self.new).raised ≡ bit_or (self.old).raised (kind_mask what) }
        ensures pick { (self.new).pick ≡ or_kind_pick (self.old).pick what }
        ensures place { ((self.new).place ≡ (self.old).place + 1) × ((self.new).due ≡ (self.old).due) }
    {
        self.raised |= raised_by(what);
        self.pick = first_pick(self.pick, what);
        self.place += 1;
    }
}

/// What the `every` lines give for a step.
fn every_lines(script: &Script, step: u32) -> EveryLines
    requires step { (1 ≤ step) × (step ≤ most_steps) }
    requires script { IsScript script.now }
    ensures { AreEveryLines (script.now).everys.items step result }
{
    let mut lines = EveryLines {
        raised: 0,
        due: NEVER,
    };
    for every in script.everys.as_slice() {
        lines.take(*every, step);
    }
    lines
}

impl EveryLines {
    /// Takes what a line gives for a step, and for which step it stands next.
    fn take(&mut self, every: Every, step: u32)
        requires step { (1 ≤ step) × (step ≤ most_steps) }
        requires line { IsEvery every }
        ensures raised { (self.new).raised ≡ bit_or (self.old).raised (every_mask step every) }
        ensures sooner { (self.new).due ≤ (self.old).due }
        ensures later { step < (self.old).due → step < (self.new).due }
        ensures between { (k : ℕ) → step < k → k < (self.new).due → k % every.period ≢ 0 }
    {
        self.raised |= raised_every(every, step);
        self.due = self.due.min(step - step % every.period + every.period);
    }
}

/// The mask of the line that an `at` line raises.
fn raised_by(what: AtKind) -> u16
    requires { IsKind what }
    ensures { result ≡ kind_mask what }
{
    match what {
        AtKind::Raise(line) => mask_of(line),
        AtKind::Pick(_) => 0,
    }
}

/// The first pick, behind what a line gives.
fn first_pick(pick: Option<u32>, what: AtKind) -> Option<u32>
    ensures { result ≡ or_kind_pick pick what }
{
    match pick {
        Some(number) => Some(number),
        None => match what {
            AtKind::Pick(number) => Some(number),
            AtKind::Raise(_) => None,
        },
    }
}

/// The mask of the line that an `every` line raises at a step.
fn raised_every(every: Every, step: u32) -> u16
    requires { IsEvery every }
    ensures { result ≡ every_mask step every }
{
    if step % every.period == 0 {
        mask_of(every.line)
    } else {
        0
    }
}
