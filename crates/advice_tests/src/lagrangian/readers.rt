//! Statements with drawn rents, each with what a planner gets of its block.
ghost use Rattle.std.specs.Prelude.{◌<◌, IfSome};
ghost use Rattle.adv_base.specs.Named.{NamesBlock, NamesWork};
ghost use Rattle.plan_model.specs.BlockTask.{IsTaskOf};

use crate::rented::{Rented, rent_at};
use access_paths::{ConfigOffers, task};
use adv_base::{Block, Config, List, NoMemory, Setting, Work};
use plan_model::Task;
use planner::least;
use std::alloc::Global;
use std::process::Abort;

/// How great the rents are that are drawn, from 0 on and below `most * times`, and the price of a page.
#[derive(Clone, Copy)]
pub(crate) struct Scale {
    pub(crate) most: u32,
    pub(crate) times: u32,
    pub(crate) page: u128,
}

/// Pseudo-random numbers, by Knuth's linear congruential generator.
#[derive(Drop)]
pub(crate) struct Draws {
    pub(crate) state: u64,
}

impl Draws {
    /// A number below another.
    fn below(&mut self, bound: u32) -> u32
        requires { 0 < bound }
        ensures { result < bound }
    {
        self.state = self
            .state
            .wrapping_mul(6364136223846793005)
            .wrapping_add(1442695040888963407);
        ((self.state >> 33) % bound as u64) as u32
    }

    /// A rent; one in three is 0.
    fn rent(&mut self, scale: Scale) -> u64 {
        let some = self.below(scale.most.max(1)) as u64;
        if self.below(3) == 0 {
            0
        } else {
            some.saturating_mul(scale.times as u64)
        }
    }
}

/// A statement with a block: its weight, what a planner gets of the block, and the rent of each use of a candidate, that of
/// candidate a at slot s at place 8 * a + s.
#[derive(Drop)]
pub(crate) struct Reader<'a> {
    setting: Setting<'a>,
    block: &'a Block,
    pub(crate) weight: u32,
    task: Task,
    rents: [u64; 64],
    ghost named: { NamesBlock setting.cat.now block.now },
    ghost own: { IsTaskOf setting.cat.now block.now task },
}

impl Reader<'_> {
    /// The rent of a use of a candidate at a slot; None where it isn't on the slot's table.
    fn rent(&self, slot: u8, number: u16) -> Option<u64> {
        let source = self.block.slots.as_slice().get(slot as usize)?;
        let place = (number as usize).saturating_sub(1);
        let shape = self.setting.shapes.get(place)?;
        if shape.table == source.table {
            Some(rent_at(&self.rents, Some(number), slot))
        } else {
            None
        }
    }

    /// What a candidate earns in the statement, weighted.
    pub(crate) fn earned(&self, number: u16) -> i128 {
        let mut sum: u64 = 0;
        for slot in 0..8u8 {
            sum = sum.saturating_add(self.rent(slot, number).unwrap_or(0));
        }
        i128::from(sum).saturating_mul(i128::from(self.weight))
    }

    /// What a least plan costs with candidates at their rents.
    #[tactic(auto, using(crate::proofs::Rents::rented_offers))]
    pub(crate) fn cost(&self, alloc: Global, config: &Config) -> Result<u128, NoMemory> {
        let setting = &self.setting;
        let offers = ConfigOffers::new(alloc, setting.cat, self.block, setting.shapes, config)?;
        let rented = Rented {
            offers: &offers,
            rents: &self.rents,
        };
        let found = least(alloc, &self.task, &rented)?;
        Ok(found.cost)
    }
}

/// The block of a SELECT, an UPDATE or a DELETE; an INSERT has none.
fn block_of<'a>(setting: &Setting<'_>, work: &'a Work) -> Option<&'a Block>
    requires { NamesWork setting.now.cat.now work.now }
    ensures { IfSome result (λ block. NamesBlock setting.now.cat.now block.now) }
{
    match work {
        Work::Select(block) => Some(block),
        Work::Update(block, _) => Some(block),
        Work::Delete(block) => Some(block),
        Work::Insert { .. } => None,
    }
}

/// A statement with a block, with drawn rents.
fn reader_of<'a>(
    rt: &impl Abort,
    alloc: Global,
    setting: &Setting<'a>,
    block: &'a Block,
    weight: u32,
    draws: &mut Draws,
    scale: Scale,
) -> Reader<'a>
    requires { NamesBlock setting.now.cat.now block.now }
{
    let task = task(alloc, setting.cat, block).expect(rt, "memory");
    let mut rents = [0; 64];
    for rent in rents.iter_mut() {
        *rent = draws.rent(scale);
    }
    Reader {
        setting: *setting,
        block,
        weight,
        task,
        rents,
    }
}

/// The statements with blocks, with drawn rents.
pub(crate) fn readers_of<'a>(
    rt: &impl Abort,
    alloc: Global,
    setting: &Setting<'a>,
    draws: &mut Draws,
    scale: Scale,
) -> Vec<Reader<'a>> {
    let mut readers = Vec::new(alloc);
    for statement in setting.statements {
        if let Some(block) = block_of(setting, &statement.work) {
            let reader = reader_of(rt, alloc, setting, block, statement.weight, draws, scale);
            readers.push(reader).expect(rt, "memory");
        }
    }
    readers
}

/// The rents in the order of a programme's grants: by statement, by slot, and by candidate on the slot's table.
pub(crate) fn rents_in_order(rt: &impl Abort, alloc: Global, readers: &[Reader<'_>]) -> List<u64> {
    let mut rents = Vec::new(alloc);
    for reader in readers {
        for slot in 0..8u8 {
            for number in 1..7u16 {
                if let Some(rent) = reader.rent(slot, number) {
                    rents.push(rent).expect(rt, "memory");
                }
            }
        }
    }
    List { items: rents }
}
