//! The ledgers of a search.
ghost use Rattle.std.specs.Prelude.{◌<◌, All, length};
ghost use Rattle.bip_model.specs.Views.{AreMultipliers};
ghost use Rattle.lagrange_bound.specs.Ledgers.{AreCheaperParts, HasPlaces, HasRoom, IsLedger};
ghost use Rattle.branch_bound.specs.inner.Runs as runs;

use crate::task::Task;
use bip_model::Multipliers;
use lagrange_bound::{CheaperParts, Ledger, PriceRows, open_ledger};

/// The ledgers of zeros and of each set, and the rows in which each of them prices parts.
#[derive(Drop)]
pub(crate) struct Ledgers {
    pub each: Vec<Ledger>,
    pub rows: PriceRows,
}

/// Opens the ledger of a set of multipliers at the root of a search.
fn open_at_root(
    task: &Task<'_>,
    cheaper: &CheaperParts,
    set: &Multipliers,
    ledger: &mut Ledger,
    rows: &mut PriceRows,
)
    requires cheaper { AreCheaperParts task.now.programme.now cheaper.now }
    requires set { AreMultipliers task.now.programme.now set.now }
    requires room { HasRoom task.now.programme.now ledger.old }
    requires places { HasPlaces cheaper.now rows.old }
    ensures ledger { IsLedger task.now.programme.now set.now ledger.new }
    ensures places { HasPlaces cheaper.now rows.new }
{
    open_ledger(
        task.programme,
        cheaper,
        task.budget,
        task.root,
        set,
        ledger,
        rows,
    );
}

/// Opens the ledgers of zeros and of the sets at the root of a search.
pub(crate) fn open_all(
    task: &Task<'_>,
    cheaper: &CheaperParts,
    zeros: &Multipliers,
    sets: &[Multipliers],
    ledgers: &mut Ledgers,
)
    requires cheaper { AreCheaperParts task.now.programme.now cheaper.now }
    requires zeros { AreMultipliers task.now.programme.now zeros.now }
    requires sets { All (AreMultipliers task.now.programme.now) sets.now }
    requires enough { length sets.now < length ledgers.old.each.items }
    requires room { All (HasRoom task.now.programme.now) ledgers.old.each.items }
    requires places { HasPlaces cheaper.now ledgers.old.rows }
    ensures { runs.AreOpen task.now.programme.now zeros.now sets.now (length sets.now) ledgers.new.each.items }
{
    open_at_root(
        task,
        cheaper,
        zeros,
        &mut ledgers.each[0],
        &mut ledgers.rows,
    );
    for set in 0..sets.len() {
        open_at_root(
            task,
            cheaper,
            &sets[set],
            &mut ledgers.each[set + 1],
            &mut ledgers.rows,
        );
    }
}
