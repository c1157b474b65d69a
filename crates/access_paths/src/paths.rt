//! The access paths to a table.
ghost use Rattle.std.specs.Prelude.{◌≡◌, ◌≤◌, ◌+◌, ◌==◌, ◌++◌, ◌∷◌, [], length, IfOk, OnOk, map, if◌then◌else◌};
ghost use Rattle.adv_base.specs.Offers as ways;
ghost use Rattle.access_paths.specs.inner.Paths as listed;

use adv_base::limits::MOST_CANDIDATES;
use adv_base::{Config, Index, IndexShape, NoMemory, Table};
use std::alloc::Global;

/// A way to read a table: as a whole, through an index that exists, or through a candidate with its number, from 1.
#[derive(Clone, Copy)]
pub enum AccessPath<'a> {
    Heap,
    Existing(&'a Index),
    Candidate(u16, &'a IndexShape),
}

/// Puts a path at the end.
fn put<'a>(paths: &mut Vec<AccessPath<'a>>, path: AccessPath<'a>) -> Result<(), NoMemory>
    ensures put { OnOk result (listed.as_paths paths.new.items ≡ listed.as_paths paths.old.items ++ listed.as_path path.entry ∷ []) }
    ensures one { OnOk result (length paths.new.items ≡ length paths.old.items + 1) }
{
    paths.push(path)?;
    Ok(())
}

/// Adds the indexes of a table.
fn add_existing<'a>(paths: &mut Vec<AccessPath<'a>>, table: &'a Table) -> Result<(), NoMemory>
    ensures added { OnOk result (listed.as_paths paths.new.items ≡ listed.as_paths paths.old.items ++ map ways.Existing table.now.indexes) }
    ensures few { OnOk result (length paths.new.items ≡ length paths.old.items + length table.now.indexes) }
{
    for index in table.indexes.items.iter() {
        put(paths, AccessPath::Existing(index))?;
    }
    Ok(())
}

/// Adds a candidate that is taken.
fn add_candidate<'a>(
    paths: &mut Vec<AccessPath<'a>>,
    taken: bool,
    number: u16,
    shape: &'a IndexShape,
) -> Result<(), NoMemory>
    ensures few { OnOk result (length paths.new.items ≤ length paths.old.items + 1) }
    ensures added { OnOk result (listed.as_paths paths.new.items ≡ listed.as_paths paths.old.items ++ (if taken then ways.Candidate number shape.now ∷ [] else [])) }
{
    if taken {
        return put(paths, AccessPath::Candidate(number, shape));
    }
    Ok(())
}

/// Adds those of a configuration's candidates that are on the table of a number.
fn add_candidates<'a>(
    paths: &mut Vec<AccessPath<'a>>,
    table: u16,
    shapes: &'a [IndexShape],
    config: &Config,
) -> Result<(), NoMemory>
    ensures few { OnOk result (length paths.new.items ≤ length paths.old.items + MOST_CANDIDATES) }
    ensures added { OnOk result (listed.as_paths paths.new.items ≡ listed.as_paths paths.old.items ++ map ways.candidate_path (ways.numbered_on shapes.now config.now table)) }
{
    for (place, shape) in shapes.iter().enumerate() {
        if place >= MOST_CANDIDATES {
            return Ok(());
        }
        let taken = config.on[place] && shape.table == table;
        add_candidate(paths, taken, place as u16 + 1, shape)?;
    }
    Ok(())
}

/// The paths to a table, whose number is given too: the whole table, its indexes in the catalogue's order, and the
/// configuration's candidates on it by number.
pub fn paths_on<'a>(
    alloc: Global,
    number: u16,
    table: &'a Table,
    shapes: &'a [IndexShape],
    config: &Config,
) -> Result<Vec<AccessPath<'a>>, NoMemory>
    ensures few { IfOk result (λ paths. length paths.items ≤ 1 + (length table.now.indexes + MOST_CANDIDATES)) }
    ensures paths { IfOk result (λ paths. listed.as_paths paths.items ≡ ways.paths_on shapes.now config.now number table.now) }
{
    let mut paths = Vec::new(alloc);
    put(&mut paths, AccessPath::Heap)?;
    add_existing(&mut paths, table)?;
    add_candidates(&mut paths, number, shapes, config)?;
    Ok(paths)
}
