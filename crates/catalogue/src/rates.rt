//! The table of rates.
ghost use Rattle.std.specs.Prelude.{◌≡◌, ◌≤◌, IfOk};
ghost use Rattle.adv_base.specs.declared.limits.TheConstants.{MOST_RATE};
ghost use Rattle.toml.specs.View.{view, table_view};
ghost use Rattle.catalogue.specs.Catalogue as rows;
ghost use Rattle.catalogue.specs.Content.{plain_rates};
ghost use Rattle.catalogue.specs.Values.{Gives};

use crate::fault::{CatFault, KeyField, KeyPath};
use crate::keys::optional_natural;
use crate::paths::rates_path;
use crate::values::keys_of;
use adv_base::Rates;
use adv_base::limits::MOST_RATE;
use toml::{Table, Value};

/// The rates where none are given.
pub fn default_rates() -> Rates
    ensures { plain_rates result ≡ rows.default_rates }
{
    Rates::default()
}

/// One rate, from 0 to a million, or its default.
fn rate(keys: &Table, key: &str, field: KeyField, otherwise: u64) -> Result<u64, CatFault>
    requires { otherwise ≤ MOST_RATE }
    ensures exact { Gives (λ n. n) result (rows.rate key.now field otherwise (table_view keys.now)) }
    ensures most { IfOk result (λ n. n ≤ MOST_RATE) }
{
    let given = optional_natural(keys, key, rates_path(field), 0, MOST_RATE)?;
    match given {
        Some(number) => Ok(number),
        None => Ok(otherwise),
    }
}

/// These rates, with those of pages and rows that a table gives in place of theirs.
#[tactic(auto, unfolding(crate::specs::Catalogue::access_rates))]
fn access_rates(rates: Rates, keys: &Table) -> Result<Rates, CatFault>
    ensures { Gives plain_rates result (rows.access_rates (plain_rates rates) (table_view keys.now)) }
{
    let seq_page = rate(keys, "seq_page", KeyField::SeqPage, rates.seq_page)?;
    let rand_page = rate(keys, "rand_page", KeyField::RandPage, rates.rand_page)?;
    let row_cpu = rate(keys, "row_cpu", KeyField::RowCpu, rates.row_cpu)?;
    Ok(Rates {
        seq_page,
        rand_page,
        row_cpu,
        sort_cpu: rates.sort_cpu,
        merge_cpu: rates.merge_cpu,
        hash_cpu: rates.hash_cpu,
        group_cpu: rates.group_cpu,
    })
}

/// These rates, with those of operators that a table gives in place of theirs.
#[tactic(auto, unfolding(crate::specs::Catalogue::operator_rates))]
fn operator_rates(rates: Rates, keys: &Table) -> Result<Rates, CatFault>
    ensures { Gives plain_rates result (rows.operator_rates (plain_rates rates) (table_view keys.now)) }
{
    let sort_cpu = rate(keys, "sort_cpu", KeyField::SortCpu, rates.sort_cpu)?;
    let merge_cpu = rate(keys, "merge_cpu", KeyField::MergeCpu, rates.merge_cpu)?;
    let hash_cpu = rate(keys, "hash_cpu", KeyField::HashCpu, rates.hash_cpu)?;
    let group_cpu = rate(keys, "group_cpu", KeyField::GroupCpu, rates.group_cpu)?;
    Ok(Rates {
        seq_page: rates.seq_page,
        rand_page: rates.rand_page,
        row_cpu: rates.row_cpu,
        sort_cpu,
        merge_cpu,
        hash_cpu,
        group_cpu,
    })
}

/// The rates that a table gives, each with its default where it is left out.
#[tactic(auto, unfolding(crate::specs::Catalogue::rates_of))]
pub fn rates(value: &Value, path: KeyPath) -> Result<Rates, CatFault>
    ensures { Gives plain_rates result (rows.rates_of path (view value.now)) }
{
    let keys = keys_of(value, path)?;
    let rates = access_rates(default_rates(), keys)?;
    operator_rates(rates, keys)
}
