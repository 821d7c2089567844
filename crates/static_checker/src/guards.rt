//! Guards: which instructions a guard may stand before, how many, from which version of the form on, and whether one does.

ghost use Rattle.std.specs.Prelude.{◌≡◌, ℕ, ◌+◌, ◌<◌, ◌≤◌, ◌↔◌, IsTrue, length, MatchOption};
ghost use Rattle.code_model.specs.declared.object.TheConstants.{CODE_WORDS_MAX};
ghost use Rattle.code_model.specs.declared.guards.GuardKind.{GuardKind};
ghost use Rattle.code_model.specs.Guards.{IsPlainStore, IsStoreForm, IsGrowthForm, IsPopForm, IsSpForm, IsNearStore, IsWideForm, IsOwnDst, IsLoadSrc, IsLoadForm, Serves, ServesAt, reach_bytes, most_served, least_version};
ghost use Rattle.static_checker.specs.Cursors.{IsCursor};
ghost use Rattle.code_laws.specs.SecondWords.{SecondIs, HighIs};
ghost use Rattle.static_checker.specs.Loads.{TestsRegister};
ghost use Rattle.static_checker.specs.CodeUnits.{wording, OnlyKind, IsServing, IsServedSpot};

use crate::cursor::{Cursor, unrelocated};
use crate::spot::{Spot, spot_at, word_at};
use crate::stores::in_static;
use code_model::forms::{is_at_r4, is_high, steps_no_pointer};
use code_model::guards::{GuardKind, Reach};
use code_model::object::Object;
use msp_encode::instr::{Dst, Instr, Src};
use msp_encode::registers::{CHECKED, SP};

/// The kind of a guard that begins at a start with `MOV SR,R5`, by its second word and the ninth: a guard that does begin
/// there has the words of this kind.
pub fn kind_at(o: &Object, at: usize) -> GuardKind
    requires { at < length o.now.code }
    ensures only { OnlyKind o.now at result }
    ensures wording { wording result ≡ result }
{
    kind_by(word_at(&o.code, at + 1), word_at(&o.code, at + 8))
}

/// The kind of the guard that has this second word and this ninth, if one has, a load guard being one of the store guard's.
fn kind_by(second: u16, high: u16) -> GuardKind
    ensures only { (g : GuardKind) → SecondIs g second → HighIs g high → wording g ≡ result }
    ensures wording { wording result ≡ result }
{
    match second {
        // `CMP &x,SP`, `CMP SP,&x` and `CMP &x,R4`
        0x9211 => GuardKind::Growth,
        0x9182 => GuardKind::Pop,
        0x9214 => GuardKind::Sp,
        _ => match high {
            0xFFFE => GuardKind::Wide(Reach::Two),
            0xFFFC => GuardKind::Wide(Reach::Four),
            0xFFFA => GuardKind::Wide(Reach::Six),
            _ => GuardKind::Store,
        },
    }
}

/// How many instructions a guard may serve.
pub fn most_served(kind: GuardKind) -> usize
    ensures { result ≡ most_served kind }
{
    match kind {
        GuardKind::Wide(_) => 4,
        _ => 1,
    }
}

/// The version of the form from which on there is such a guard.
fn least_version(kind: GuardKind) -> u8
    ensures { result ≡ least_version kind }
{
    match kind {
        GuardKind::Wide(_) | GuardKind::Load => 2,
        _ => 1,
    }
}

/// The guard with the words of this kind, at the cursor, that serves an instruction at a place. None exactly where none does.
pub fn serving(
    kind: GuardKind,
    o: &Object,
    cursor: Cursor,
    at: usize,
    i: Instr,
) -> Option<GuardKind>
    requires cursor { IsCursor o.now.relocs cursor }
    requires order { cursor.at ≤ at }
    requires within { at < CODE_WORDS_MAX }
    requires wording { wording kind ≡ kind }
    ensures { MatchOption result ((g : GuardKind) → IsServing kind o.now cursor.at at i g → ⊥) (λ g. IsServing kind o.now cursor.at at i g) }
{
    if may_serve(kind, o, cursor, at, i) {
        return Some(kind);
    }
    if kind == GuardKind::Store && may_serve(GuardKind::Load, o, cursor, at, i) {
        return Some(GuardKind::Load);
    }
    None
}

/// Tells whether the object's version has guards of this kind, and one at the cursor may stand before an instruction at a
/// place.
fn may_serve(kind: GuardKind, o: &Object, cursor: Cursor, at: usize, i: Instr) -> bool
    requires cursor { IsCursor o.now.relocs cursor }
    requires order { cursor.at ≤ at }
    requires within { at < CODE_WORDS_MAX }
    ensures { IsTrue result ↔ ((least_version kind ≤ o.now.version) × Serves kind o.now cursor.at at i) }
{
    least_version(kind) <= o.version && serves(kind, o, cursor, at, i)
}

/// The instruction at a place, if a guard of this kind, at the cursor, may stand before it. None exactly where none such is.
pub fn served_at(o: &Object, cursor: Cursor, kind: GuardKind, at: usize) -> Option<Spot>
    requires cursor { IsCursor o.now.relocs cursor }
    requires order { cursor.at ≤ at }
    requires within { at ≤ length o.now.code }
    ensures { MatchOption result (ServesAt kind o.now cursor.at at → ⊥) (λ s. IsServedSpot kind o.now cursor.at at s) }
{
    match spot_at(&o.code, at) {
        Some(spot) => if serves(kind, o, cursor, at, spot.instr) {
            Some(spot)
        } else {
            None
        },
        None => None,
    }
}

/// Tells whether a guard of this kind, at the cursor, may stand before an instruction at a place.
fn serves(kind: GuardKind, o: &Object, cursor: Cursor, at: usize, i: Instr) -> bool
    requires cursor { IsCursor o.now.relocs cursor }
    requires order { cursor.at ≤ at }
    requires within { at < CODE_WORDS_MAX }
    ensures { IsTrue result ↔ Serves kind o.now cursor.at at i }
{
    match kind {
        GuardKind::Store => is_store_form(o, cursor, at, i),
        GuardKind::Wide(reach) => is_wide_form(reach_bytes(reach), o, cursor, at, i),
        GuardKind::Load => is_load_form(o, cursor, at, i),
        GuardKind::Growth => is_growth_form(i),
        GuardKind::Pop => is_pop_form(i),
        GuardKind::Sp => is_sp_form(i),
    }
}

/// How many bytes beyond the tested address the stores of a wide guard may go.
fn reach_bytes(reach: Reach) -> u16
    ensures { result ≡ reach_bytes reach }
{
    match reach {
        Reach::Two => 2,
        Reach::Four => 4,
        Reach::Six => 6,
    }
}

/// Tells whether an instruction writes 0(R4) as its destination or @R4 as its operand.
fn is_store_form(o: &Object, cursor: Cursor, at: usize, i: Instr) -> bool
    requires cursor { IsCursor o.now.relocs cursor }
    requires order { cursor.at ≤ at }
    requires within { at < CODE_WORDS_MAX }
    ensures { IsTrue result ↔ IsStoreForm o.now at i }
{
    match i {
        Instr::Two { op, src, dst, .. } => op.writes()
            && is_plain_store(o, cursor, at + 1 + src.words(), dst)
            && steps_no_pointer(src),
        Instr::One { op, src, .. } => op.changes() && is_at_r4(src),
        _ => false,
    }
}

/// Tells whether a destination is 0(R4), and its word, at a place, isn't relocated.
fn is_plain_store(o: &Object, cursor: Cursor, at: usize, dst: Dst) -> bool
    requires cursor { IsCursor o.now.relocs cursor }
    requires order { cursor.at ≤ at }
    requires within { at < 32768 }
    ensures { IsTrue result ↔ IsPlainStore o.now at dst }
{
    match dst {
        Dst::Indexed(n, x) => n == CHECKED && x == 0 && unrelocated(o, cursor, at),
        _ => false,
    }
}

/// Tells whether an instruction writes x(R4) as its destination, x being even and at most so many bytes.
fn is_wide_form(most: u16, o: &Object, cursor: Cursor, at: usize, i: Instr) -> bool
    requires cursor { IsCursor o.now.relocs cursor }
    requires order { cursor.at ≤ at }
    requires within { at < CODE_WORDS_MAX }
    ensures { IsTrue result ↔ IsWideForm most o.now at i }
{
    match i {
        Instr::Two { op, src, dst, .. } => op.writes()
            && is_near_store(most, o, cursor, at + 1 + src.words(), dst)
            && steps_no_pointer(src),
        _ => false,
    }
}

/// Tells whether a destination is x(R4), x being even and at most so many bytes, and its word, at a place, isn't relocated.
fn is_near_store(most: u16, o: &Object, cursor: Cursor, at: usize, dst: Dst) -> bool
    requires cursor { IsCursor o.now.relocs cursor }
    requires order { cursor.at ≤ at }
    requires within { at < 32768 }
    ensures { IsTrue result ↔ IsNearStore most o.now at dst }
{
    match dst {
        Dst::Indexed(n, x) => n == CHECKED && x % 2 == 0 && x <= most && unrelocated(o, cursor, at),
        _ => false,
    }
}

/// Tells whether an instruction reads @R4, or @Rn+ where R4 is Rn, into a register or the static part, or tests 0(R4).
fn is_load_form(o: &Object, cursor: Cursor, at: usize, i: Instr) -> bool
    requires cursor { IsCursor o.now.relocs cursor }
    requires order { cursor.at ≤ at }
    requires within { at < CODE_WORDS_MAX }
    ensures { IsTrue result ↔ IsLoadForm o.now cursor.at at i }
{
    match i {
        Instr::Two { op, src, dst, .. } => {
            let place = at + 1 + src.words();
            (is_load_src(o, cursor, src) && is_own_dst(o, cursor, place, dst))
                || (op.tests() && is_plain_store(o, cursor, place, dst) && steps_no_pointer(src))
        }
        _ => false,
    }
}

/// Tells whether a source is @R4, or @Rn+ of the register whose value the guard at the cursor tests.
fn is_load_src(o: &Object, cursor: Cursor, src: Src) -> bool
    requires cursor { IsCursor o.now.relocs cursor }
    requires within { cursor.at < CODE_WORDS_MAX }
    ensures { IsTrue result ↔ IsLoadSrc o.now cursor.at src }
{
    match src {
        Src::Indirect(n) => n == CHECKED,
        Src::AutoInc(n) => 6 <= n && n <= 15 && tests_register(o, cursor, n),
        _ => false,
    }
}

/// Tells whether the guard at the cursor tests the value of this register: it moves it into R4 and adds 0, unrelocated.
fn tests_register(o: &Object, cursor: Cursor, n: u8) -> bool
    requires cursor { IsCursor o.now.relocs cursor }
    requires within { cursor.at < CODE_WORDS_MAX }
    requires register { n ≤ 15 }
    ensures { IsTrue result ↔ TestsRegister o.now cursor.at n }
{
    word_at(&o.code, cursor.at + 1) == 0x4004 + 256 * u16::from(n)
        && word_at(&o.code, cursor.at + 3) == 0
        && unrelocated(o, cursor, cursor.at + 3)
}

/// Tells whether a destination is a register, or an absolute operand in the static part, whose word is at a place.
fn is_own_dst(o: &Object, cursor: Cursor, at: usize, dst: Dst) -> bool
    requires cursor { IsCursor o.now.relocs cursor }
    requires order { cursor.at ≤ at }
    requires within { at < 32768 }
    ensures { IsTrue result ↔ IsOwnDst o.now at dst }
{
    match dst {
        Dst::Reg(_) => true,
        Dst::Absolute(x) => in_static(o, cursor, at, x),
        _ => false,
    }
}

/// Tells whether an instruction is PUSH or CALL.
fn is_growth_form(i: Instr) -> bool
    ensures { IsTrue result ↔ IsGrowthForm i }
{
    match i {
        Instr::One { op, src, .. } => op.stacks() && steps_no_pointer(src),
        _ => false,
    }
}

/// Tells whether an instruction is `MOV @SP+,Rn` for n from 4 on.
fn is_pop_form(i: Instr) -> bool
    ensures { IsTrue result ↔ IsPopForm i }
{
    match i {
        Instr::Two {
            op,
            width,
            src,
            dst,
        } => op.is_mov() && width.is_wide() && src.pops(SP) && is_high(dst),
        _ => false,
    }
}

/// Tells whether an instruction is `MOV R4,SP`.
fn is_sp_form(i: Instr) -> bool
    ensures { IsTrue result ↔ IsSpForm i }
{
    match i {
        Instr::Two {
            op,
            width,
            src,
            dst,
        } => op.is_mov() && width.is_wide() && src.is_reg(CHECKED) && dst.is_reg(SP),
        _ => false,
    }
}
