//! The document that a file holds, and its keys.
ghost use Rattle.std.specs.Prelude.{◌≡◌, codes, IsErrOf, None};
ghost use Rattle.toml.specs.Parse.{parse_document};
ghost use Rattle.toml.specs.View.{table_view};
ghost use Rattle.adv_base.specs.Readings.{or_fault};
ghost use Rattle.catalogue.specs.declared.fault.CatFault.TheVariants.{NotToml};
ghost use Rattle.catalogue.specs.Catalogue as rows;
ghost use Rattle.catalogue.specs.Content.{plain_catalogue, plain_rates};
ghost use Rattle.catalogue.specs.Keys.{given_or};
ghost use Rattle.catalogue.specs.Paths as paths;
ghost use Rattle.catalogue.specs.Values.{Gives};

use crate::fault::{CatFault, KeyField};
use crate::keys;
use crate::paths::{rates_path, whole_path};
use crate::rates::{default_rates, rates};
use crate::tables::tables;
use adv_base::{Catalogue, Rates};
use std::alloc::Global;
use toml::Table;

/// The document that a text is.
fn parsed(alloc: Global, text: &str) -> Result<Table, CatFault>
    ensures { Gives table_view result (or_fault NotToml (parse_document text.now)) }
{
    match toml::table_from_str(alloc, text) {
        Ok(keys) => Ok(keys),
        Err(fault) => {
            if fault.is_memory() {
                return Err(CatFault::Memory);
            }
            Err(CatFault::NotToml)
        }
    }
}

/// The document that bytes hold.
fn document(alloc: Global, bytes: &[u8]) -> Result<Table, CatFault>
    ensures { Gives table_view result (or_fault NotToml (rows.document bytes.now)) }
{
    match std::str::from_utf8(bytes) {
        Ok(text) => parsed(alloc, text),
        Err(_) => Err(CatFault::NotToml),
    }
}

/// The rates of a document, or those by default.
fn given_rates(keys: &Table) -> Result<Rates, CatFault>
    ensures { Gives plain_rates result
        (given_or rows.default_rates (codes "rates") (paths.rates_path KeyField.Itself) rows.rates_of (table_view keys.now)) }
{
    match keys::value_at(keys, "rates") {
        Some(value) => rates(value, rates_path(KeyField::Itself)),
        None => Ok(default_rates()),
    }
}

/// The catalogue of a document.
#[tactic(auto, unfolding(crate::specs::Catalogue::catalogue_of))]
fn catalogue(alloc: Global, keys: &Table) -> Result<Catalogue, CatFault>
    ensures { Gives plain_catalogue result (rows.catalogue_of (table_view keys.now)) }
{
    let path = whole_path(KeyField::Version);
    let version = keys::needed_natural(keys, "version", path, 1, 2)?;
    let rates = given_rates(keys)?;
    let tables = tables(alloc, version, keys)?;
    Ok(Catalogue { rates, tables })
}

/// The catalogue of the document that bytes hold.
#[tactic(auto, unfolding(crate::specs::Catalogue::catalogue_in))]
fn catalogue_of_file(alloc: Global, bytes: &[u8]) -> Result<Catalogue, CatFault>
    ensures { Gives plain_catalogue result (rows.catalogue_in bytes.now) }
{
    let keys = document(alloc, bytes)?;
    catalogue(alloc, &keys)
}

/// The catalogue that a TOML text describes.
///
/// The keys are checked in order: `version`, `rates` with its keys, and `table`; of each table the element, `name`,
/// `rows`, `pages`, `may_cluster`, `column` with each column, and `index` with each index. Version 2 alone has
/// `may_cluster`, and `bounds` as a column's last key. The first fault is answered with its path; of one key, what is missing comes before a wrong kind, that before a value out of range, that before a name that
/// stands twice, and that before an unknown name. Keys that have no meaning here are passed over.
///
/// `NotToml` comes exactly where the bytes are no UTF-8 or no document of TOML 1.1, as the crate `toml` reads it, and `Memory` where memory runs out.
pub fn read_catalogue(alloc: Global, bytes: &[u8]) -> Result<Catalogue, CatFault>
    // The catalogue, or the first fault, unless memory ran out.
    ensures exact { Gives plain_catalogue result (rows.catalogue_in bytes.now) }
    // Only bytes that hold no document are answered so.
    ensures not_toml { IsErrOf result CatFault.NotToml → rows.document bytes.now ≡ None }
{
    catalogue_of_file(alloc, bytes)
}
