//! Lines of scripts.
ghost use Rattle.std.specs.Prelude.{◌≡◌, ℕ, List, MatchOption};
ghost use Rattle.edit_script.specs.Scripts as scripts;
ghost use Rattle.edit_script.specs.inner.Fronts as fronts;

use crate::edit::Edit;
use crate::front::{after, front_number};
use adv_base::limits::{MOST_STATEMENTS, MOST_WEIGHT};
use adv_base::{first_line, read_number};

/// A line that adds a statement.
fn added(line: &[u8]) -> Option<Edit<'_>>
    ensures { MatchOption result ((weight : ℕ) (sql : List ℕ) → ¬ (fronts.SaysEdit line.now (scripts.Add weight sql))) (λ edit. fronts.SaysEdit line.now (scripts.the_edit edit)) }
{
    let rest = after(line, b"add ")?;
    let (weight, sql) = front_number(rest, MOST_WEIGHT)?;
    if sql.is_empty() {
        return None;
    }
    Some(Edit::Add(weight, sql))
}

/// A line that removes one.
fn removed(line: &[u8]) -> Option<Edit<'_>>
    ensures { MatchOption result ((number : ℕ) → ¬ (fronts.SaysEdit line.now (scripts.Remove number))) (λ edit. fronts.SaysEdit line.now (scripts.the_edit edit)) }
{
    let rest = after(line, b"remove ")?;
    let number = read_number(rest, 1, MOST_STATEMENTS as u64)?;
    Some(Edit::Remove(number as u32))
}

/// A line that gives one a weight.
fn weighed(line: &[u8]) -> Option<Edit<'_>>
    ensures { MatchOption result ((number weight : ℕ) → ¬ (fronts.SaysEdit line.now (scripts.Weigh number weight))) (λ edit. fronts.SaysEdit line.now (scripts.the_edit edit)) }
{
    let rest = after(line, b"weigh ")?;
    let (number, more) = front_number(rest, MOST_STATEMENTS as u32)?;
    let weight = read_number(more, 1, MOST_WEIGHT as u64)?;
    Some(Edit::Weigh(number, weight as u32))
}

/// A line that asks for advice.
fn advised(line: &[u8]) -> Option<Edit<'_>>
    ensures { MatchOption result (¬ (fronts.SaysEdit line.now scripts.Advise)) (λ edit. fronts.SaysEdit line.now (scripts.the_edit edit)) }
{
    if line == b"advise".as_slice() {
        return Some(Edit::Advise);
    }
    None
}

/// The edit that a line is, which stands without its line feed.
fn edit_in(line: &[u8]) -> Option<Edit<'_>>
    ensures { MatchOption result ((edit : scripts.TheEdit) → ¬ (fronts.SaysEdit line.now edit)) (λ edit. fronts.SaysEdit line.now (scripts.the_edit edit)) }
{
    if let Some(edit) = added(line) {
        return Some(edit);
    }
    if let Some(edit) = removed(line) {
        return Some(edit);
    }
    if let Some(edit) = weighed(line) {
        return Some(edit);
    }
    advised(line)
}

/// The edit of the first line, and what follows the line.
pub(crate) fn front_edit(bytes: &[u8]) -> Option<(Edit<'_>, &[u8])>
    ensures { MatchOption result ((edit : scripts.TheEdit) (rest : List ℕ) → ¬ (fronts.BeginsWithEdit bytes.now edit rest)) (λ r. fronts.BeginsWithEdit bytes.now (scripts.the_edit r.0) r.1.now) }
{
    let (line, rest) = first_line(bytes)?;
    let edit = edit_in(line)?;
    Some((edit, rest))
}
