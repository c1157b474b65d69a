//! The ends of columns' values.
ghost use Rattle.std.specs.Prelude.{◌≡◌, IfOk};
ghost use Rattle.std.specs.Option.{ForSome};
ghost use Rattle.toml.specs.View.{table_view};
ghost use Rattle.adv_base.specs.Limits.Numbers.{EndLimits};
ghost use Rattle.catalogue.specs.Catalogue as rows;
ghost use Rattle.catalogue.specs.Paths as paths;
ghost use Rattle.catalogue.specs.Values.{Gives};

use crate::fault::{CatFault, KeyField, KeyPath};
use crate::keys;
use crate::paths::column_path;
use adv_base::Kind;
use toml::Table;

/// The upper end of a column's values, which isn't below the lower one.
fn not_below(low: Option<i64>, path: KeyPath, high: Option<i64>) -> Result<Option<i64>, CatFault>
    ensures exact { result ≡ rows.not_below low path high }
    ensures same { IfOk result (λ o. o ≡ high) }
{
    match (low, high) {
        (Some(least), Some(most)) if most < least => Err(CatFault::OutOfRange(path)),
        _ => Ok(high),
    }
}

/// The ends of the values of the column of these numbers, which is of a kind.
#[tactic(auto, unfolding(crate::specs::Catalogue::range_of))]
pub fn range(
    table: u32,
    column: u32,
    kind: Kind,
    found: &Table,
) -> Result<(Option<i64>, Option<i64>), CatFault>
    ensures exact { Gives (λ x. x) result (rows.range_of (paths.column_path table column) kind (table_view found.now)) }
    ensures within { IfOk result (λ x. ForSome x.0 EndLimits × ForSome x.1 EndLimits) }
{
    let path = column_path(table, column, KeyField::Low);
    let low = keys::end(found, "low", path, kind)?;
    let path = column_path(table, column, KeyField::High);
    let high = keys::end(found, "high", path, kind)?;
    let high = not_below(low, path, high)?;
    Ok((low, high))
}
