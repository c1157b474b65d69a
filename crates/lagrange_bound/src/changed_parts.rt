//! Which parts are to be priced anew where the candidates that may be used change.
ghost use Rattle.std.specs.Prelude.{◌≡◌, ℕ, ◌+◌, ◌*◌, ◌<◌, ◌≤◌, ◌||◌, true, false, length, slice_index_or};
ghost use Rattle.adv_base.specs.declared.limits.TheConstants.{MOST_CANDIDATES, MOST_STATEMENTS};
ghost use Rattle.lagrange_bound.specs.inner.Marks as marks_spec;

use crate::carrying::one_alone;
use adv_base::Config;
use adv_base::limits::{MOST_CANDIDATES, MOST_STATEMENTS};

/// Whether one of two holds.
fn either(a: bool, b: bool) -> bool
    ensures { result ≡ (a || b) }
{
    a || b
}

/// Marks the parts whose flag is on.
fn mark_flagged(flags: &[bool], marks: &mut [bool])
    requires flag_each { length flags.now ≡ length marks.old }
    ensures mark_each { length marks.new ≡ length marks.old }
    ensures keeps { marks_spec.Keeps marks.old marks.new }
    ensures marked { marks_spec.Keeps flags.now marks.new }
{
    for i in 0..marks.len() {
        marks[i] = either(flags[i], marks[i]);
    }
}

/// Marks the parts that a candidate can make cheaper, where only one of two configurations has it.
fn mark_candidate(flags: &[bool], a: usize, from: &Config, to: &Config, marks: &mut [bool])
    requires within { a < MOST_CANDIDATES }
    requires flags { length flags.now ≡ MOST_CANDIDATES * MOST_STATEMENTS }
    requires few { length marks.old ≤ MOST_STATEMENTS }
    ensures mark_each { length marks.new ≡ length marks.old }
    ensures keeps { marks_spec.Keeps marks.old marks.new }
    ensures marked { (i : ℕ) → i < length marks.old → slice_index_or marks.new i false ≡ false → slice_index_or flags.now (a * MOST_STATEMENTS + i) false ≡ true → slice_index_or from.now.on a false ≡ slice_index_or to.now.on a false }
{
    if !one_alone(from.on[a], to.on[a]) {
        return;
    }
    let at = a * MOST_STATEMENTS;
    mark_flagged(&flags[at..at + marks.len()], marks);
}

/// Takes all marks away.
fn clear(marks: &mut [bool])
    ensures { length marks.new ≡ length marks.old }
{
    for i in 0..marks.len() {
        marks[i] = false;
    }
}

/// Marks the parts that a candidate can make cheaper which only one of two configurations has, and no others.
pub(crate) fn mark_changed(flags: &[bool], from: &Config, to: &Config, marks: &mut [bool])
    requires flags { length flags.now ≡ MOST_CANDIDATES * MOST_STATEMENTS }
    requires few { length marks.old ≤ MOST_STATEMENTS }
    ensures mark_each { length marks.new ≡ length marks.old }
    ensures marked { marks_spec.AreMarked flags.now from.now to.now marks.new (length marks.old) MOST_CANDIDATES }
{
    clear(marks);
    for a in 0..MOST_CANDIDATES {
        mark_candidate(flags, a, from, to, marks);
    }
}
