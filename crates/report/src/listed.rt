//! The texts of candidate indexes.
ghost use Rattle.std.specs.Prelude.{◌≡◌, ◌++◌, ◌∷◌, [], OnOk, All};
ghost use Rattle.adv_base.specs.Named.{NamesShape};
ghost use Rattle.report.specs.Listings as lists;

use crate::usage::push_numbered;
use adv_base::{Catalogue, IndexShape, Table, push_decimal, table_at};
use hypo_indexes::pages;
use std::alloc::{AllocError, Global};

/// Adds the name of a table's column.
fn push_column(out: &mut Vec<u8>, table: &Table, key: u16) -> Result<(), AllocError>
    ensures { OnOk result (out.new.items ≡ out.old.items ++ lists.column_words table.now key) }
{
    match table.columns.as_slice().get(key as usize) {
        Some(column) => out.extend_from_slice(column.name.as_slice()),
        None => Ok(()),
    }
}

/// Adds the columns of keys, with commas between them.
fn push_keys(out: &mut Vec<u8>, table: &Table, keys: &[u16]) -> Result<(), AllocError>
    ensures { OnOk result (out.new.items ≡ out.old.items ++ lists.key_words table.now keys.now) }
{
    let Some((first, rest)) = keys.split_first() else {
        return Ok(());
    };
    push_column(out, table, *first)?;
    for key in rest {
        out.extend_from_slice(b", ")?;
        push_column(out, table, *key)?;
    }
    Ok(())
}

/// Adds a table with key columns.
fn push_index(out: &mut Vec<u8>, table: &Table, keys: &[u16]) -> Result<(), AllocError>
    ensures { OnOk result (out.new.items ≡ out.old.items ++ lists.index_words table.now keys.now) }
{
    out.extend_from_slice(table.name.as_slice())?;
    out.extend_from_slice(b"(")?;
    push_keys(out, table, keys)?;
    out.extend_from_slice(b")")
}

/// Adds the table of an index with its key columns.
fn push_shape(out: &mut Vec<u8>, cat: &Catalogue, shape: &IndexShape) -> Result<(), AllocError>
    ensures { OnOk result (out.new.items ≡ out.old.items ++ lists.shape_words cat.now shape.now) }
{
    match table_at(cat, shape.table) {
        Some(table) => push_index(out, table, shape.keys.as_slice()),
        None => Ok(()),
    }
}

/// Adds that an index is clustered, where it is.
fn push_cluster(out: &mut Vec<u8>, clustered: bool) -> Result<(), AllocError>
    ensures { OnOk result (out.new.items ≡ out.old.items ++ lists.cluster_words clustered) }
{
    if clustered {
        return out.extend_from_slice(b" clustered");
    }
    Ok(())
}

/// Adds a candidate with its number.
#[tactic(auto, unfolding(crate::specs::Listings::candidate_words))]
fn push_candidate(
    alloc: Global,
    out: &mut Vec<u8>,
    cat: &Catalogue,
    number: u128,
    shape: &IndexShape,
) -> Result<(), AllocError>
    requires { NamesShape cat.now shape.now }
    ensures { OnOk result (out.new.items ≡ out.old.items ++ lists.candidate_words cat.now number shape.now) }
{
    push_decimal(alloc, out, number)?;
    out.extend_from_slice(b" ")?;
    push_shape(out, cat, shape)?;
    push_cluster(out, shape.clustered)?;
    push_numbered(alloc, out, b" ", pages(cat, shape) as u128)?;
    out.extend_from_slice(b" pages")
}

/// Adds the line of a candidate.
pub(crate) fn push_line(
    alloc: Global,
    out: &mut Vec<u8>,
    cat: &Catalogue,
    number: u128,
    shape: &IndexShape,
) -> Result<(), AllocError>
    requires { NamesShape cat.now shape.now }
    ensures { OnOk result (out.new.items ≡ out.old.items ++ (lists.candidate_words cat.now number shape.now ++ 10 ∷ [])) }
{
    push_candidate(alloc, out, cat, number, shape)?;
    out.extend_from_slice(b"\n")
}

/// Adds a line for each candidate.
pub(crate) fn push_candidates(
    alloc: Global,
    out: &mut Vec<u8>,
    cat: &Catalogue,
    shapes: &[IndexShape],
) -> Result<(), AllocError>
    requires { All (NamesShape cat.now) shapes.now }
    ensures { OnOk result (out.new.items ≡ out.old.items ++ lists.candidate_lines cat.now 1 shapes.now) }
{
    'shapes: for at in 0..shapes.len() {
        push_line(alloc, out, cat, at as u128 + 1, &shapes[at])?;
    }
    Ok(())
}
