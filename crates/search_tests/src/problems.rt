//! Problems of six candidates, of which some are clustered on one table, and the least that any set costs, by a plain program
//! that tries each.
ghost use Rattle.std.specs.Prelude.{◌≡◌, length};

use crate::made::list;
use adv_base::{Config, IndexShape, List};
use bip_model::{Programme, value};
use std::alloc::Global;
use std::process::Abort;

/// What a search is asked: a programme of six candidates with the tables on which they are clustered, and a budget of pages.
#[derive(Drop)]
pub(crate) struct Problem<'a> {
    pub programme: &'a Programme,
    pub tables: [u16; 6],
    pub budget: u64,
}

/// Six candidates that aren't clustered.
pub(crate) const PLAIN: [u16; 6] = [0; 6];

/// The shapes of candidates that are clustered on tables of these numbers, and plain at 0. The plain ones are of table 1.
pub(crate) fn shapes_of(rt: &impl Abort, alloc: Global, tables: [u16; 6]) -> List<IndexShape>
    ensures { length result ≡ 6 }
{
    let mut shapes = Vec::new(alloc);
    for at in 0..6 {
        let shape = IndexShape {
            table: tables[at].max(1),
            keys: list(rt, alloc, &[1u16]),
            unique: false,
            clustered: tables[at] > 0,
        };
        shapes.push(shape).expect(rt, "memory");
    }
    List { items: shapes }
}

/// The configuration whose candidates are the binary digits of a number.
pub(crate) fn configuration(number: usize) -> Config {
    let mut config = Config::none();
    for index in 0..6 {
        config.on[index] = (number >> index) & 1 == 1;
    }
    config
}

/// The pages of a configuration.
pub(crate) fn pages(programme: &Programme, config: &Config) -> u64 {
    let mut sum: u64 = 0;
    for (size, on) in programme.sizes.as_slice().iter().zip(config.on.iter()) {
        if *on {
            sum = sum.saturating_add(*size);
        }
    }
    sum
}

/// Whether two candidates of a configuration are clustered on one table.
fn clashes(tables: [u16; 6], config: &Config) -> bool {
    for second in 0..6 {
        for first in 0..second {
            if config.on[first]
                && config.on[second]
                && tables[first] > 0
                && tables[first] == tables[second]
            {
                return true;
            }
        }
    }
    false
}

/// Whether a configuration fits.
pub(crate) fn fits(problem: &Problem<'_>, config: &Config) -> bool {
    pages(problem.programme, config) <= problem.budget && !clashes(problem.tables, config)
}

/// The least value of the 64 configurations that fits.
pub(crate) fn least(problem: &Problem<'_>) -> u128 {
    let mut best = u128::MAX;
    for number in 0..64 {
        let config = configuration(number);
        if fits(problem, &config) {
            best = best.min(value(problem.programme, &config));
        }
    }
    best
}
