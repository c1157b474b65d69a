//! The parts of a programme, by the caches that a session keeps.
ghost use Rattle.std.specs.Prelude.{IfOk, length};
ghost use Rattle.adv_base.specs.Settings.{the_setting};
ghost use Rattle.programme_parts.specs.Parts.{ArePartsBelow};
ghost use Rattle.programme_parts.specs.Caches.{AreCached};

use adv_base::{List, NoMemory, Setting};
use bip_model::Part;
use inum_cache::Cache;
use programme_parts::push_statement;
use std::alloc::Global;

/// The parts of the statements that have a block, by their caches.
pub(crate) fn parts_by(
    alloc: Global,
    setting: &Setting<'_>,
    caches: &[Option<Cache>],
) -> Result<List<Part>, NoMemory>
    requires { AreCached setting.now.cat.now setting.now.statements.now caches.now }
    ensures { IfOk result (ArePartsBelow (the_setting setting.now) (length setting.now.statements.now)) }
{
    let mut parts = Vec::new(alloc);
    for at in 0..setting.statements.len() {
        push_statement(
            alloc,
            setting,
            at,
            &setting.statements[at],
            &caches[at],
            &mut parts,
        )?;
    }
    Ok(List { items: parts })
}
