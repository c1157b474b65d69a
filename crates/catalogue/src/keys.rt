//! Looking keys up, those that are needed and those that may be left out.
ghost use Rattle.std.specs.Prelude.{◌≡◌, ◌≤◌, ◌∷◌, ◌++◌, [], codes, option_map, IfOk, IfSome};
ghost use Rattle.std.specs.Option.{ForSome};
ghost use Rattle.toml.specs.Data.{get_member};
ghost use Rattle.toml.specs.View.{view, table_view};
ghost use Rattle.catalogue.specs.Values.{Gives};
ghost use Rattle.catalogue.specs.Values as values;
ghost use Rattle.catalogue.specs.Keys as rows;
ghost use Rattle.catalogue.specs.Catalogue as table;
ghost use Rattle.adv_base.specs.Limits.Numbers.{EndLimits};

use crate::fault::{CatFault, KeyPath};
use crate::names::Names;
use crate::values;
use adv_base::{Kind, Name};
use std::alloc::Global;
use toml::{Table, Value};

/// The value at a key, where there is one.
pub fn value_at<'a>(keys: &'a Table, key: &str) -> Option<&'a Value>
    ensures { option_map (λ v. view v.now) result ≡ get_member key.now (table_view keys.now) }
{
    keys.get(key)
}

/// The value at a key that is needed.
pub fn needed<'a>(keys: &'a Table, key: &str, path: KeyPath) -> Result<&'a Value, CatFault>
    ensures { Gives (λ v. view v.now) result (rows.present path (get_member key.now (table_view keys.now))) }
{
    match value_at(keys, key) {
        Some(value) => Ok(value),
        None => Err(CatFault::Missing(path)),
    }
}

/// A whole number that is needed.
pub fn needed_natural(
    keys: &Table,
    key: &str,
    path: KeyPath,
    low: u64,
    high: u64,
) -> Result<u64, CatFault>
    ensures exact { Gives (λ n. n) result
        (rows.needed key.now path (values.natural low high) (table_view keys.now)) }
    ensures within { IfOk result (λ n. (low ≤ n) × (n ≤ high)) }
{
    let value = needed(keys, key, path)?;
    values::natural(value, path, low, high)
}

/// A whole number that may be left out.
pub fn optional_natural(
    keys: &Table,
    key: &str,
    path: KeyPath,
    low: u64,
    high: u64,
) -> Result<Option<u64>, CatFault>
    ensures exact { Gives (λ n. n) result
        (rows.optional key.now path (values.natural low high) (table_view keys.now)) }
    ensures within { IfOk result (λ o. IfSome o (λ n. (low ≤ n) × (n ≤ high))) }
{
    match value_at(keys, key) {
        Some(value) => {
            let number = values::natural(value, path, low, high)?;
            Ok(Some(number))
        }
        None => Ok(None),
    }
}

/// A name that is needed and that no earlier one of its list has; it joins them.
pub fn needed_name(
    alloc: Global,
    keys: &Table,
    path: KeyPath,
    names: &mut Names,
) -> Result<Name, CatFault>
    ensures exact { Gives (λ n. n) result
        (rows.needed (codes "name") path (values.new_name names.old) (table_view keys.now)) }
    ensures joins { IfOk result (λ n. names.new ≡ names.old ++ values.folded n ∷ []) }
{
    let value = needed(keys, "name", path)?;
    new_name(alloc, value, path, names)
}

/// A name that no earlier one of its list has; it joins them.
fn new_name(
    alloc: Global,
    value: &Value,
    path: KeyPath,
    names: &mut Names,
) -> Result<Name, CatFault>
    ensures exact { Gives (λ n. n) result (values.new_name names.old path (view value.now)) }
    ensures joins { IfOk result (λ n. names.new ≡ names.old ++ values.folded n ∷ []) }
{
    let word = values::name(value, path)?;
    if !names.add(alloc, word)? {
        return Err(CatFault::TwoNames(path));
    }
    let items = Vec::from_slice(alloc, word.as_bytes())?;
    Ok(Name { items })
}

/// What values a column holds, which is needed.
pub fn needed_kind(keys: &Table, path: KeyPath) -> Result<Kind, CatFault>
    ensures { Gives (λ k. k) result (rows.needed (codes "kind") path values.column_kind (table_view keys.now)) }
{
    let value = needed(keys, "kind", path)?;
    values::column_kind(value, path)
}

/// True or false, and false where the key is left out.
pub fn flag(keys: &Table, key: &str, path: KeyPath) -> Result<bool, CatFault>
    ensures { Gives (λ b. b) result (table.flag key.now path (table_view keys.now)) }
{
    match value_at(keys, key) {
        Some(value) => values::boolean(value, path),
        None => Ok(false),
    }
}

/// An end of a column's values, by the column's kind. Whatever a column of texts has there is passed over.
pub fn end(keys: &Table, key: &str, path: KeyPath, kind: Kind) -> Result<Option<i64>, CatFault>
    ensures exact { Gives (λ o. o) result (table.end_of kind key.now path (table_view keys.now)) }
    ensures within { IfOk result (λ o. ForSome o EndLimits) }
{
    if let Kind::Text = kind {
        return Ok(None);
    }
    match value_at(keys, key) {
        Some(value) => {
            let end = values::end_value(value, path, kind)?;
            Ok(Some(end))
        }
        None => Ok(None),
    }
}
