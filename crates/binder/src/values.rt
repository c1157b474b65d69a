//! The values that columns are compared with.
ghost use Rattle.std.specs.Prelude.{◌≡◌, slice_get, option_and_then};
ghost use Rattle.std.specs.Option.{option_map_or};
ghost use Rattle.adv_base.specs.declared.catalogue.column.Kind.TheVariants as kinds;
ghost use Rattle.binder.specs.Conditions as where_clause;
ghost use Rattle.binder.specs.Values as literals;
ghost use Rattle.binder.specs.View.{names_of};

use crate::gathered::SlotColumn;
use crate::names::text_bytes;
use crate::scope::Scope;
use adv_base::{Column, Kind, Table, Value, day_of};
use sql_reader::Literal;

/// What a literal is among whole numbers.
fn int_value(literal: Literal) -> Value
    ensures { result ≡ literals.int_value literal }
{
    match literal {
        Literal::Whole(number) => Value::Number(number),
        _ => Value::Plain,
    }
}

/// What a literal is among days, counted from 1970-01-01.
fn date_value(text: &[u8], literal: Literal) -> Value
    ensures { result ≡ literals.date_value text.now literal }
{
    match literal {
        Literal::Day(day) => Value::Number(day),
        Literal::Text(span) => match day_of(text_bytes(text, span)) {
            Some(day) => Value::Number(day),
            None => Value::Plain,
        },
        _ => Value::Plain,
    }
}

/// What a literal is for a column of this kind.
fn value_of(text: &[u8], kind: Kind, literal: Literal) -> Value
    ensures { result ≡ literals.value_of text.now kind literal }
{
    match kind {
        Kind::Int => int_value(literal),
        Kind::Date => date_value(text, literal),
        Kind::Text => Value::Plain,
    }
}

/// The kind of a column; text where there is no such column.
fn kind_in(columns: &[Column], column: u16) -> Kind
    ensures { result ≡ option_map_or (λ x. x.kind) (slice_get columns.now column) kinds.Text }
{
    if column as usize >= columns.len() {
        return Kind::Text;
    }
    columns[column as usize].kind
}

/// The kind of a column of a table.
fn kind_at(tables: &[Table], table: u16, column: u16) -> Kind
    ensures { result ≡ option_map_or (λ x. x.kind) (option_and_then (λ table. slice_get table.columns column) (slice_get tables.now table)) kinds.Text }
{
    if table as usize >= tables.len() {
        return Kind::Text;
    }
    kind_in(tables[table as usize].columns.as_slice(), column)
}

/// The kind of a slot's column.
fn kind_of(scope: &Scope<'_>, c: SlotColumn) -> Kind
    ensures { result ≡ where_clause.kind_of (names_of scope.now) c }
{
    if c.slot as usize >= scope.sources.len() {
        return Kind::Text;
    }
    let table = scope.sources.items[c.slot as usize].table;
    kind_at(scope.directory.cat.tables.as_slice(), table, c.column)
}

/// What a literal is for a slot's column.
pub fn literal_value(scope: &Scope<'_>, c: SlotColumn, literal: Literal) -> Value
    ensures { result ≡ where_clause.literal_value (names_of scope.now) c literal }
{
    value_of(scope.text, kind_of(scope, c), literal)
}
