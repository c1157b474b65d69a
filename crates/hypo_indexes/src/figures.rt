//! What candidates take and cost, found once for a setting.
ghost use Rattle.std.specs.Prelude.{◌≡◌, ◌*◌, ◌≤◌, All, IfOk, map};
ghost use Rattle.adv_base.specs.Named.{NamesShape};
ghost use Rattle.adv_base.specs.Settings.{the_setting};
ghost use Rattle.adv_base.specs.Sizes.{shape_pages};
ghost use Rattle.adv_base.specs.Upkeep as write;
ghost use Rattle.adv_base.specs.declared.limits.TheConstants.{MOST_INDEXES, MOST_INDEX_PAGES, MOST_STATEMENTS, MOST_UPKEEP, MOST_WEIGHT};
ghost use Rattle.hypo_indexes.specs.Figures.{AreFigures};

use crate::size::pages;
use crate::writes::{kept_upkeep, upkeep};
use adv_base::{IndexShape, List, NoMemory, Setting};
use std::alloc::Global;

/// The pages of each candidate, and its upkeep in thousandths of a page read, summed over the statements by weight; `kept` is
/// that of all indexes that exist.
#[derive(Debug, Drop)]
pub struct Figures {
    pub sizes: List<u64>,
    pub upkeep: List<u128>,
    pub kept: u128,
}

/// The pages of each candidate.
fn sizes_of(alloc: Global, setting: &Setting<'_>) -> Result<List<u64>, NoMemory>
    ensures exact { IfOk result (λ sizes. sizes ≡ map (shape_pages setting.now.cat.now) setting.now.shapes.now) }
    ensures most { IfOk result (λ sizes. All (λ size. size ≤ MOST_INDEX_PAGES) sizes) }
{
    let mut sizes = Vec::new(alloc);
    for shape in setting.shapes {
        sizes.push(pages(setting.cat, shape))?;
    }
    Ok(List { items: sizes })
}

/// The sum of weight times upkeep of an index.
fn weighted_upkeep(setting: &Setting<'_>, shape: &IndexShape) -> u128
    requires { NamesShape setting.now.cat.now shape.now }
    ensures exact { result ≡ write.weighted_upkeep (the_setting setting.now) shape.now }
    ensures most { result ≤ MOST_STATEMENTS * (MOST_WEIGHT * MOST_UPKEEP) }
{
    let mut sum: u128 = 0;
    for statement in setting.statements {
        sum += statement.weight as u128 * upkeep(setting.cat, statement, shape);
    }
    sum
}

/// The same of each candidate.
fn upkeep_of(alloc: Global, setting: &Setting<'_>) -> Result<List<u128>, NoMemory>
    ensures exact { IfOk result (λ costs. costs ≡ map (write.weighted_upkeep (the_setting setting.now)) setting.now.shapes.now) }
    ensures most { IfOk result (λ costs. All (λ cost. cost ≤ MOST_STATEMENTS * (MOST_WEIGHT * MOST_UPKEEP)) costs) }
{
    let mut costs = Vec::new(alloc);
    for shape in setting.shapes {
        costs.push(weighted_upkeep(setting, shape))?;
    }
    Ok(List { items: costs })
}

/// The sum of weight times upkeep of the indexes that exist.
fn weighted_kept(setting: &Setting<'_>) -> u128
    ensures exact { result ≡ write.weighted_kept (the_setting setting.now) }
    ensures most { result ≤ MOST_STATEMENTS * (MOST_WEIGHT * (MOST_INDEXES * MOST_UPKEEP)) }
{
    let mut sum: u128 = 0;
    for statement in setting.statements {
        sum += statement.weight as u128 * kept_upkeep(setting.cat, statement);
    }
    sum
}

impl Figures {
    /// The figures of a setting. Want of memory is the one error.
    pub fn new(alloc: Global, setting: &Setting<'_>) -> Result<Figures, NoMemory>
        ensures { IfOk result (AreFigures (the_setting setting.now)) }
    {
        let sizes = sizes_of(alloc, setting)?;
        let upkeep = upkeep_of(alloc, setting)?;
        Ok(Figures {
            sizes,
            upkeep,
            kept: weighted_kept(setting),
        })
    }
}
