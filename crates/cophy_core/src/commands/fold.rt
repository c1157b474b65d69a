//! `fold`: a shorter workload that costs the same.
ghost use Rattle.std.specs.Prelude.{◌≤◌, ◌<◌, ℕ, List, IfOk, IfErr, Some, length};
ghost use Rattle.adv_base.specs.Settings.{the_setting};
ghost use Rattle.adv_base.specs.declared.limits.TheConstants.{MOST_FILE_BYTES};
ghost use Rattle.report.specs.Texts.{FitsSetting};
ghost use Rattle.cophy_core.specs.Causes.{IsBounded};
ghost use Rattle.cophy_core.specs.Endings.{plain_puts};
ghost use Rattle.cophy_core.specs.Settings.{AreStatementsOf};
ghost use Rattle.cophy_core.specs.Stops.{StopsAt};
ghost use Rattle.cophy_core.specs.commands.Fold as spec;

use crate::commands::cost::prices_of;
use crate::stop::Stop;
use crate::worked::{Worked, one_put};
use adv_base::limits::MOST_FILE_BYTES;
use adv_base::{Config, Setting};
use report::{Done, FoldDone, Refusal};
use sql_reader::read_workload;
use std::alloc::Global;
use workload_fold::{fold_text, folded_texts_read_back, folding_keeps_totals};

/// How many statements the workload of a setting, which was read from these bytes, has, how many groups of alike ones, and
/// what it costs over the indexes that exist; the text that has a statement for each group is to be put into a file. Or that
/// this text is longer than a file may be.
pub(crate) fn fold(
    alloc: Global,
    setting: &Setting<'_>,
    load: &[u8],
    out: &str,
) -> Result<Worked, Stop>
    requires read { AreStatementsOf setting.now.cat.now load.now setting.now.statements.now }
    requires short { length load.now ≤ MOST_FILE_BYTES }
    ensures gives { IfOk result (λ worked. spec.Gives load.now (the_setting setting.now) worked.done) }
    ensures puts { IfOk result (λ worked. (cat : List ℕ) → spec.Puts cat load.now out.now (the_setting setting.now) worked.done (plain_puts worked.puts)) }
    ensures fits { IfOk result (λ worked. FitsSetting (Some (the_setting setting.now)) worked.done) }
    ensures bound { IfOk result (λ worked. IsBounded worked.done) }
    ensures stop { IfErr result (StopsAt (spec.Refuses load.now (the_setting setting.now))) }
{
    folding_keeps_totals();
    folded_texts_read_back();
    let none = Config::none();
    let prices = prices_of(alloc, setting, &none)?;
    let parsed = read_workload(alloc, load)?;
    let folded = workload_fold::fold(alloc, setting.cat, setting.statements)?;
    let text = fold_text(alloc, &parsed, &folded)?;
    let count = text.as_slice().len() as u64;
    if count > MOST_FILE_BYTES {
        return Err(Stop::Refused(Refusal::FoldTooLong(count)));
    }
    let puts = one_put(alloc, out, text)?;
    Ok(Worked {
        done: Done::Folded(FoldDone {
            statements: setting.statements.len() as u32,
            groups: folded.first.as_slice().len() as u32,
            total: prices.total,
        }),
        puts,
    })
}
