//! The statements of a made workload.
ghost use Rattle.std.specs.Prelude.{◌≡◌, ◌<◌, ◌≤◌, ◌++◌, OnOk, string_bytes};
ghost use Rattle.workload_gen.specs.Draws.{after};
ghost use Rattle.workload_gen.specs.Statements.{drawn_choice, sorted_text, range_text, join_text, group_text, update_text, query_text, statement_text, statements_text};

use crate::draws::Draws;
use std::alloc::AllocError;
use std::fmt::Write;

/// What is drawn for a statement: its weight, the table that it reads or changes, from 1, a value, and one of five kinds.
#[derive(Clone, Copy, Debug)]
pub(crate) struct Choice {
    pub(crate) weight: u64,
    pub(crate) table: u64,
    pub(crate) value: u64,
    pub(crate) kind: u64,
}

/// Draws the numbers of a statement over so many tables.
#[tactic(auto, unfolding(crate::specs::Statements::drawn_choice))]
fn draw_choice(draws: &mut Draws, tables: u32) -> Choice
    requires some { 0 < tables }
    requires few { tables ≤ 20 }
    ensures choice { result ≡ drawn_choice tables draws.old.state }
    ensures state { draws.new.state ≡ after 4 draws.old.state }
    ensures table { result.table ≤ 20 }
    ensures value { result.value ≤ 1000 }
{
    Choice {
        weight: 1 + draws.draw(100),
        table: 1 + draws.draw(tables as u64),
        value: 1 + draws.draw(1000),
        kind: draws.draw(5),
    }
}

/// Adds a statement that sorts.
#[tactic(auto, unfolding(crate::specs::Statements::sorted_text))]
fn push_sorted(out: &mut String, table: u64, value: u64) -> Result<(), AllocError>
    ensures { OnOk result (string_bytes out.new ≡ string_bytes out.old ++ sorted_text table value) }
{
    write!(
        out,
        "SELECT a, b FROM t{table} WHERE a = {value} ORDER BY b;\n"
    )
}

/// Adds a statement with a range.
#[tactic(auto, unfolding(crate::specs::Statements::range_text))]
fn push_range(out: &mut String, table: u64, value: u64) -> Result<(), AllocError>
    requires { value ≤ 1000 }
    ensures { OnOk result (string_bytes out.new ≡ string_bytes out.old ++ range_text table value) }
{
    let last = value + 50;
    write!(
        out,
        "SELECT k, d FROM t{table} WHERE b BETWEEN {value} AND {last};\n"
    )
}

/// Adds a statement that joins two tables.
#[tactic(auto, unfolding(crate::specs::Statements::join_text))]
fn push_join(out: &mut String, table: u64, other: u64, value: u64) -> Result<(), AllocError>
    ensures { OnOk result (string_bytes out.new ≡ string_bytes out.old ++ join_text table other value) }
{
    write!(
        out,
        "SELECT x.a, y.b FROM t{table} x, t{other} y WHERE x.f = y.k AND x.b = {value} ORDER BY x.a;\n"
    )
}

/// Adds a statement that groups.
#[tactic(auto, unfolding(crate::specs::Statements::group_text))]
fn push_group(out: &mut String, table: u64) -> Result<(), AllocError>
    ensures { OnOk result (string_bytes out.new ≡ string_bytes out.old ++ group_text table) }
{
    write!(out, "SELECT a, sum(b) FROM t{table} GROUP BY a;\n")
}

/// Adds a statement that changes a row.
#[tactic(auto, unfolding(crate::specs::Statements::update_text))]
fn push_update(out: &mut String, table: u64, value: u64) -> Result<(), AllocError>
    ensures { OnOk result (string_bytes out.new ≡ string_bytes out.old ++ update_text table value) }
{
    write!(out, "UPDATE t{table} SET b = {value} WHERE k = {value};\n")
}

/// Adds the line of a statement.
#[tactic(auto, unfolding(crate::specs::Statements::query_text))]
fn push_query(out: &mut String, tables: u32, choice: Choice) -> Result<(), AllocError>
    requires some { 0 < tables }
    requires value { choice.value ≤ 1000 }
    ensures { OnOk result (string_bytes out.new ≡ string_bytes out.old ++ query_text tables choice) }
{
    match choice.kind {
        0 => push_sorted(out, choice.table, choice.value),
        1 => push_range(out, choice.table, choice.value),
        2 => push_join(
            out,
            choice.table,
            choice.table % tables as u64 + 1,
            choice.value,
        ),
        3 => push_group(out, choice.table),
        _ => push_update(out, choice.table, choice.value),
    }
}

/// Adds a line with the weight and the line of a statement.
#[tactic(auto, unfolding(crate::specs::Statements::statement_text))]
fn push_statement(out: &mut String, tables: u32, choice: Choice) -> Result<(), AllocError>
    requires some { 0 < tables }
    requires value { choice.value ≤ 1000 }
    ensures { OnOk result (string_bytes out.new ≡ string_bytes out.old ++ statement_text tables choice) }
{
    let weight = choice.weight;
    write!(out, "-- weight {weight}\n")?;
    push_query(out, tables, choice)?;
    Ok(())
}

/// Draws and adds so many statements over so many tables.
pub(crate) fn push_statements(
    out: &mut String,
    draws: &mut Draws,
    tables: u32,
    count: u32,
) -> Result<(), AllocError>
    requires some { 0 < tables }
    requires few { tables ≤ 20 }
    ensures { OnOk result (string_bytes out.new ≡ string_bytes out.old ++ statements_text count tables draws.old.state) }
{
    'statements: for _ in 0..count {
        let choice = draw_choice(draws, tables);
        push_statement(out, tables, choice)?;
    }
    Ok(())
}
