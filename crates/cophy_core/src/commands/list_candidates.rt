//! `candidates`: the indexes that a workload proposes.
ghost use Rattle.std.specs.Prelude.{◌≡◌, IfOk, Some};
ghost use Rattle.adv_base.specs.Settings.{the_setting};
ghost use Rattle.candidates.specs.Candidates.{AreCandidates};
ghost use Rattle.report.specs.Texts.{FitsSetting};
ghost use Rattle.cophy_core.specs.Causes.{IsBounded};
ghost use Rattle.cophy_core.specs.commands.Candidates as spec;

use adv_base::{IndexShape, List, NoMemory, Setting};
use candidates::Candidates;
use report::Done;
use std::alloc::Global;

/// A copy of an index.
fn copied(alloc: Global, shape: &IndexShape) -> Result<IndexShape, NoMemory>
    ensures { IfOk result (λ copy. copy ≡ shape.now) }
{
    let keys = Vec::from_slice(alloc, shape.keys.as_slice())?;
    Ok(IndexShape {
        table: shape.table,
        keys: List { items: keys },
        unique: shape.unique,
        clustered: shape.clustered,
    })
}

/// A copy of a list of indexes.
pub(crate) fn copies(alloc: Global, shapes: &[IndexShape]) -> Result<List<IndexShape>, NoMemory>
    ensures { IfOk result (λ list. list ≡ shapes.now) }
{
    let mut items = Vec::new(alloc);
    'shapes: for shape in shapes {
        items.push(copied(alloc, shape)?)?;
    }
    Ok(List { items })
}

/// The first 256 of the indexes that the statements propose and that do not exist, which are those of the setting, and how
/// many more there are.
pub(crate) fn list_candidates(
    alloc: Global,
    setting: &Setting<'_>,
    left_over: u64,
) -> Result<Done, NoMemory>
    requires { AreCandidates setting.now.cat.now setting.now.statements.now setting.now.shapes.now left_over }
    ensures gives { IfOk result (spec.Gives (the_setting setting.now)) }
    ensures fits { IfOk result (FitsSetting (Some (the_setting setting.now))) }
    ensures bound { IfOk result IsBounded }
{
    let list = copies(alloc, setting.shapes)?;
    Ok(Done::Listed(Candidates { list, left_over }))
}
