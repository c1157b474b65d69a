//! A programme of its parts.
ghost use Rattle.std.specs.Prelude.{IfOk, length};
ghost use Rattle.adv_base.specs.Settings.{the_setting};
ghost use Rattle.bip_model.specs.StandsFor.{AreEach, StandsFor, blocked_from};
ghost use Rattle.programme_parts.specs.Kept.{HasKept};
ghost use Rattle.programme_parts.specs.Parts.{ArePartsBelow};

use adv_base::{List, NoMemory, Setting};
use bip_model::{Part, Programme};
use hypo_indexes::Figures;
use std::alloc::Global;

/// The programme that stands for a setting, by the parts of its statements that have a block: beside these the pages of
/// each candidate and its upkeep, summed over the statements by weight, and the weighted upkeep of the indexes that exist.
pub fn programme_with_parts(
    alloc: Global,
    setting: &Setting<'_>,
    parts: List<Part>,
) -> Result<Programme, NoMemory>
    requires { ArePartsBelow (the_setting setting.now) (length setting.now.statements.now) parts }
    ensures stands { IfOk result (StandsFor (the_setting setting.now)) }
    ensures kept { IfOk result (λ programme. AreEach (HasKept setting.now.cat.now) (blocked_from 1 setting.now.statements.now) programme.parts) }
{
    let figures = Figures::new(alloc, setting)?;
    Ok(Programme {
        sizes: figures.sizes,
        upkeep: figures.upkeep,
        kept: figures.kept,
        parts,
    })
}
