//! The kinds of values that keys hold, and their ranges. A TOML float is no integer, and a native date no text.
ghost use Rattle.std.specs.Prelude.{◌≡◌, ◌≤◌, ◌<◌, length, IfOk};
ghost use Rattle.std.specs.List.{list_all};
ghost use Rattle.toml.specs.View.{view, items_view, table_view};
ghost use Rattle.adv_base.specs.Limits.Numbers.{EndLimits};
ghost use Rattle.catalogue.specs.Values.{Gives};
ghost use Rattle.catalogue.specs.Values as values;

use crate::fault::{CatFault, KeyPath};
use adv_base::{Kind, day_of};
use toml::{Table, Value};

/// A whole number from `low` to `high`.
pub fn natural(value: &Value, path: KeyPath, low: u64, high: u64) -> Result<u64, CatFault>
    ensures exact { result ≡ values.natural low high path (view value.now) }
    ensures within { IfOk result (λ n. (low ≤ n) × (n ≤ high)) }
{
    let Some(number) = value.as_integer() else {
        return Err(CatFault::WrongKind(path));
    };
    if number < 0 {
        return Err(CatFault::OutOfRange(path));
    }
    let number = number as u64;
    if number < low || number > high {
        return Err(CatFault::OutOfRange(path));
    }
    Ok(number)
}

/// A number that a column may hold at an end of its values, from -10^18 to 10^18.
fn end_number(value: &Value, path: KeyPath) -> Result<i64, CatFault>
    ensures exact { result ≡ values.end_number path (view value.now) }
    ensures within { IfOk result EndLimits }
{
    let Some(end) = value.as_integer() else {
        return Err(CatFault::WrongKind(path));
    };
    if end < -1000000000000000000 || end > 1000000000000000000 {
        return Err(CatFault::OutOfRange(path));
    }
    Ok(end)
}

/// A text.
pub fn text<'a>(value: &'a Value, path: KeyPath) -> Result<&'a str, CatFault>
    ensures { Gives (λ t. t.now) result (values.text path (view value.now)) }
{
    match value.as_str() {
        Some(text) => Ok(text),
        None => Err(CatFault::WrongKind(path)),
    }
}

/// A date as text, `yyyy-mm-dd`, by its number of days since 1970-01-01.
fn end_day(value: &Value, path: KeyPath) -> Result<i64, CatFault>
    ensures exact { result ≡ values.end_day path (view value.now) }
    ensures within { IfOk result EndLimits }
{
    let Some(text) = value.as_str() else {
        return Err(CatFault::WrongKind(path));
    };
    match day_of(text.as_bytes()) {
        Some(day) => Ok(day),
        None => Err(CatFault::OutOfRange(path)),
    }
}

/// An end of a column's values, by the column's kind. No value is an end of texts.
pub fn end_value(value: &Value, path: KeyPath, kind: Kind) -> Result<i64, CatFault>
    ensures exact { result ≡ values.end_value kind path (view value.now) }
    ensures within { IfOk result EndLimits }
{
    match kind {
        Kind::Int => end_number(value, path),
        Kind::Date => end_day(value, path),
        Kind::Text => Err(CatFault::WrongKind(path)),
    }
}

/// True or false.
pub fn boolean(value: &Value, path: KeyPath) -> Result<bool, CatFault>
    ensures { result ≡ values.boolean path (view value.now) }
{
    match value.as_bool() {
        Some(holds) => Ok(holds),
        None => Err(CatFault::WrongKind(path)),
    }
}

/// A table, with its keys.
pub fn keys_of<'a>(value: &'a Value, path: KeyPath) -> Result<&'a Table, CatFault>
    ensures { Gives (λ t. table_view t.now) result (values.keys_of path (view value.now)) }
{
    match value.as_table() {
        Some(keys) => Ok(keys),
        None => Err(CatFault::WrongKind(path)),
    }
}

/// An array.
pub fn elements<'a>(value: &'a Value, path: KeyPath) -> Result<&'a [Value], CatFault>
    ensures { Gives (λ a. items_view a.now) result (values.elements path (view value.now)) }
{
    match value.as_array() {
        Some(items) => Ok(items.as_slice()),
        None => Err(CatFault::WrongKind(path)),
    }
}

/// An array that has from `low` to `high` elements.
pub fn elements_within<'a>(
    value: &'a Value,
    path: KeyPath,
    low: usize,
    high: usize,
) -> Result<&'a [Value], CatFault>
    ensures exact { Gives (λ a. items_view a.now) result (values.elements_within low high path (view value.now)) }
    ensures within { IfOk result (λ a. (low ≤ length a.now) × (length a.now ≤ high)) }
{
    let items = elements(value, path)?;
    if items.len() < low || items.len() > high {
        return Err(CatFault::OutOfRange(path));
    }
    Ok(items)
}

/// What values a column holds: `int`, `text` or `date`.
pub fn column_kind(value: &Value, path: KeyPath) -> Result<Kind, CatFault>
    ensures { result ≡ values.column_kind path (view value.now) }
{
    let Some(word) = value.as_str() else {
        return Err(CatFault::WrongKind(path));
    };
    match kind_named(word) {
        Some(kind) => Ok(kind),
        None => Err(CatFault::OutOfRange(path)),
    }
}

/// The kind that has this name.
fn kind_named(word: &str) -> Option<Kind>
    ensures { result ≡ values.kind_named word.now }
{
    if word == "int" {
        Some(Kind::Int)
    } else if word == "text" {
        Some(Kind::Text)
    } else if word == "date" {
        Some(Kind::Date)
    } else {
        None
    }
}

/// Whether each byte is a letter of ASCII, a digit or an underscore.
fn has_name_bytes(word: &[u8]) -> bool
    ensures { result ≡ list_all values.is_name_byte word.now }
{
    word.iter().all(|c| c.is_ascii_alphanumeric() || *c == b'_')
}

/// Whether a text begins with no digit.
fn begins_well(word: &[u8]) -> bool
    ensures { result ≡ values.begins_well word.now }
{
    match word {
        [] => true,
        [first, ..] => !first.is_ascii_digit(),
    }
}

/// Whether a text is a name: 1 to 64 letters of ASCII, digits and underscores, with no digit first.
fn is_name(word: &str) -> bool
    ensures { result ≡ values.is_name word.now }
{
    let bytes = word.as_bytes();
    !bytes.is_empty() && bytes.len() <= 64 && has_name_bytes(bytes) && begins_well(bytes)
}

/// A name.
pub fn name<'a>(value: &'a Value, path: KeyPath) -> Result<&'a str, CatFault>
    ensures { Gives (λ t. t.now) result (values.name path (view value.now)) }
{
    let word = text(value, path)?;
    if !is_name(word) {
        return Err(CatFault::OutOfRange(path));
    }
    Ok(word)
}
