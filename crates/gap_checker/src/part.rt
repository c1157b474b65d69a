//! What the searches of a statement start from.
ghost use Rattle.std.specs.Prelude.{◌≡◌, IfOk};
ghost use Rattle.adv_base.specs.Named.{NamesBlock, NamesWork};
ghost use Rattle.adv_base.specs.Settings.{the_setting};
ghost use Rattle.bip_model.specs.StandsFor.{AreEach};
ghost use Rattle.gap_checker.specs.inner.Parts as kept;

use access_paths::{ConfigOffers, task};
use adv_base::limits::MOST_CANDIDATES;
use adv_base::{Block, Config, NoMemory, Setting, Statement};
use plan_model::Task;
use std::alloc::Global;

/// The task of a statement's block, and its offers under all candidates, each priced once.
#[derive(Drop)]
pub(crate) struct Part {
    pub task: Task,
    pub offers: ConfigOffers,
}

/// The configuration of all candidates.
fn every_candidate() -> Config
    ensures { result ≡ kept.every_candidate }
{
    Config {
        on: [true; MOST_CANDIDATES],
    }
}

/// What the searches of a block start from.
fn block_part(alloc: Global, setting: &Setting<'_>, block: &Block) -> Result<Part, NoMemory>
    requires { NamesBlock setting.now.cat.now block.now }
    ensures { IfOk result (kept.IsPart (the_setting setting.now) block.now) }
{
    let every = every_candidate();
    let task = task(alloc, setting.cat, block)?;
    let offers = ConfigOffers::new(alloc, setting.cat, block, setting.shapes, &every)?;
    Ok(Part { task, offers })
}

/// The same of a statement, where it has a block.
fn part_of(
    alloc: Global,
    setting: &Setting<'_>,
    statement: &Statement,
) -> Result<Option<Part>, NoMemory>
    requires { NamesWork setting.now.cat.now statement.now.work }
    ensures { IfOk result (kept.HasPart (the_setting setting.now) statement.now) }
{
    match statement.work.block() {
        Some(block) => {
            let part = block_part(alloc, setting, block)?;
            Ok(Some(part))
        }
        None => Ok(None),
    }
}

/// The same of each statement.
pub(crate) fn parts_of(alloc: Global, setting: &Setting<'_>) -> Result<Vec<Option<Part>>, NoMemory>
    ensures { IfOk result (λ parts. AreEach (kept.HasPart (the_setting setting.now)) setting.now.statements.now parts.items) }
{
    let mut parts = Vec::new(alloc);
    for statement in setting.statements {
        let part = part_of(alloc, setting, statement)?;
        parts.push(part)?;
    }
    Ok(parts)
}
