//! The tables of a made catalogue.
ghost use Rattle.std.specs.Prelude.{◌≡◌, ◌≤◌, ◌*◌, ◌++◌, OnOk, string_bytes};
ghost use Rattle.workload_gen.specs.Draws.{after};
ghost use Rattle.workload_gen.specs.Tables.{drawn_sizes, head_text, column_text, number_column_text, columns_text, index_text, table_text, tables_text};

use crate::draws::Draws;
use std::alloc::AllocError;
use std::fmt::Write;

/// The numbers of a table: its rows, and how many values its columns a and b have.
#[derive(Clone, Copy, Debug)]
pub(crate) struct Sizes {
    pub(crate) rows: u64,
    pub(crate) a_values: u64,
    pub(crate) b_values: u64,
}

/// Draws the numbers of a table.
#[tactic(auto, unfolding(crate::specs::Tables::drawn_sizes))]
fn draw_sizes(draws: &mut Draws) -> Sizes
    ensures sizes { result ≡ drawn_sizes draws.old.state }
    ensures state { draws.new.state ≡ after 3 draws.old.state }
{
    Sizes {
        rows: 1000 * (1 + draws.draw(1000)),
        a_values: 10 + draws.draw(991),
        b_values: 10 + draws.draw(991),
    }
}

/// Adds a table's name, its rows and its pages.
#[tactic(auto, unfolding(crate::specs::Tables::head_text))]
fn push_head(out: &mut String, number: u32, rows: u64) -> Result<(), AllocError>
    ensures { OnOk result (string_bytes out.new ≡ string_bytes out.old ++ head_text number rows) }
{
    let pages = rows / 50;
    write!(
        out,
        "[[table]]\nname = \"t{number}\"\nrows = {rows}\npages = {pages}\n"
    )
}

/// Adds a column.
#[tactic(auto, unfolding(crate::specs::Tables::column_text))]
fn push_column(
    out: &mut String,
    name: &str,
    kind: &str,
    width: u64,
    distinct: u64,
) -> Result<(), AllocError>
    ensures { OnOk result (string_bytes out.new ≡ string_bytes out.old ++ column_text name.now kind.now width distinct) }
{
    write!(
        out,
        "[[table.column]]\nname = \"{name}\"\nkind = \"{kind}\"\nwidth = {width}\ndistinct = {distinct}\n"
    )
}

/// Adds a column of numbers from 1 on.
#[tactic(auto, unfolding(crate::specs::Tables::number_column_text))]
fn push_number_column(out: &mut String, name: &str, values: u64) -> Result<(), AllocError>
    ensures { OnOk result (string_bytes out.new ≡ string_bytes out.old ++ number_column_text name.now values) }
{
    push_column(out, name, "int", 4, values)?;
    write!(out, "low = 1\nhigh = {values}\n")?;
    Ok(())
}

/// Adds the columns of a table.
#[tactic(auto, unfolding(crate::specs::Tables::columns_text))]
fn push_columns(out: &mut String, sizes: Sizes) -> Result<(), AllocError>
    ensures { OnOk result (string_bytes out.new ≡ string_bytes out.old ++ columns_text sizes) }
{
    push_column(out, "k", "int", 8, sizes.rows)?;
    push_column(out, "f", "int", 8, 1000)?;
    push_number_column(out, "a", sizes.a_values)?;
    push_number_column(out, "b", sizes.b_values)?;
    push_column(out, "d", "date", 4, 3653)?;
    out.push_str("low = \"2000-01-01\"\nhigh = \"2009-12-31\"\n")?;
    Ok(())
}

/// Adds the index on the key.
#[tactic(auto, unfolding(crate::specs::Tables::index_text))]
fn push_index(out: &mut String) -> Result<(), AllocError>
    ensures { OnOk result (string_bytes out.new ≡ string_bytes out.old ++ index_text) }
{
    out.push_str("[[table.index]]\nname = \"pk\"\nkeys = [\"k\"]\nunique = true\n")?;
    Ok(())
}

/// Adds a table.
#[tactic(auto, unfolding(crate::specs::Tables::table_text))]
fn push_table(out: &mut String, number: u32, sizes: Sizes) -> Result<(), AllocError>
    ensures { OnOk result (string_bytes out.new ≡ string_bytes out.old ++ table_text number sizes) }
{
    push_head(out, number, sizes.rows)?;
    push_columns(out, sizes)?;
    push_index(out)?;
    Ok(())
}

/// Draws and adds so many tables, numbered from 1.
pub(crate) fn push_tables(out: &mut String, draws: &mut Draws, count: u32) -> Result<(), AllocError>
    requires { count ≤ 20 }
    ensures text { OnOk result (string_bytes out.new ≡ string_bytes out.old ++ tables_text count 1 draws.old.state) }
    ensures state { OnOk result (draws.new.state ≡ after (3 * count) draws.old.state) }
{
    'tables: for at in 0..count {
        let sizes = draw_sizes(draws);
        push_table(out, at + 1, sizes)?;
    }
    Ok(())
}
