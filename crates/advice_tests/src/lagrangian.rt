//! Bounds at every node of small settings, against a plain program that tells the Lagrangian value by its definition: it
//! plans each statement anew with the rents on the prices, and uses no part of a programme.
ghost use Rattle.bip_model.specs.Views.{AreMultipliers};

mod figures;
mod readers;

use crate::lagrangian::figures::{Figures, figures_of, signed};
use crate::lagrangian::readers::{Draws, Scale, readers_of, rents_in_order};
use crate::opened::{Opened, open};
use crate::planned::planned_total;
use crate::texts::SHOP;
use adv_base::limits::{MOST_PAGE_PRICE, MOST_PAGES, MOST_RENT};
use adv_base::{Config, List, Setting};
use bip_model::{Fix, Multipliers, Programme, State, grant_count};
use hypo_indexes::config_pages;
use lagrange_bound::bound;
use std::alloc::Global;
use std::process::Abort;
use tuning::programme;
use workload_gen::make;

/// A join of three tables, and a statement of each kind that writes.
const SALES: &str = r#"-- weight 20
SELECT o.o_id, o.o_date FROM customer c JOIN orders o ON c.c_id = o.o_cust JOIN lineitem l ON l.l_order = o.o_id WHERE c.c_segment = 'BUILDING' AND o.o_date BETWEEN DATE '1995-01-01' AND DATE '1995-03-31' ORDER BY o.o_date;
-- weight 300
INSERT INTO orders VALUES (1, 2, DATE '1995-03-31'), (2, 2, DATE '1995-03-31');
-- weight 7
UPDATE orders SET o_cust = 3 WHERE o_date = DATE '1995-01-01';
DELETE FROM lineitem WHERE l_order = 4;"#;

/// How many candidates a setting has here.
const CANDIDATES: usize = 6;

/// How many nodes there are: each candidate is free, in or out.
const NODES: u32 = 729;

/// How many sets of candidates there are.
pub(crate) const SETS: u32 = 64;

/// From no rents to some above every price, and from pages for nothing to 2^39 parts of 65536.
const SCALES: [Scale; 6] = [
    Scale {
        most: 1,
        times: 1,
        page: 0,
    },
    Scale {
        most: 1000,
        times: 1,
        page: 65537,
    },
    Scale {
        most: 30000,
        times: 1,
        page: 0,
    },
    Scale {
        most: 1000000,
        times: 1,
        page: 12345678901,
    },
    Scale {
        most: 1000000,
        times: 100,
        page: 549755813888,
    },
    Scale {
        most: 1000000000,
        times: 1000000000,
        page: 33554432,
    },
];

/// The rents and the price of a page, as multipliers of a programme.
fn multipliers_of(
    rt: &impl Abort,
    programme: &Programme,
    lambda: List<u64>,
    page: u128,
) -> Multipliers
    ensures { AreMultipliers programme.now result }
{
    assert!(rt; lambda.len() == grant_count(programme));
    assert!(rt; lambda.as_slice().iter().all(|rent| *rent <= MOST_RENT));
    assert!(rt; page <= MOST_PAGE_PRICE);
    Multipliers { mu: page, lambda }
}

/// The node of a number below 729, which has in base 3 a digit for each of the candidates.
fn node(number: u32) -> Fix {
    let mut fix = Fix {
        state: [State::Free; 256],
    };
    let mut rest = number;
    for state in fix.state.iter_mut().take(CANDIDATES) {
        *state = match rest % 3 {
            0 => State::Free,
            1 => State::In,
            _ => State::Out,
        };
        rest /= 3;
    }
    fix
}

/// A configuration, with its pages and what the planner says that the workload costs.
#[derive(Drop)]
struct Planned {
    config: Config,
    pages: u64,
    total: u128,
}

/// The configuration of a number below 64, which has a bit for each of the candidates.
pub(crate) fn numbered_set(number: u32) -> Config {
    let mut config = Config::none();
    let mut rest = number;
    for flag in config.on.iter_mut().take(CANDIDATES) {
        *flag = rest % 2 == 1;
        rest /= 2;
    }
    config
}

/// All configurations.
fn all_planned(rt: &impl Abort, alloc: Global, setting: &Setting<'_>) -> Vec<Planned> {
    let mut all = Vec::new(alloc);
    for set in 0..SETS {
        let config = numbered_set(set);
        let planned = Planned {
            config,
            pages: config_pages(setting.cat, setting.shapes, &config),
            total: planned_total(rt, alloc, setting, &config),
        };
        all.push(planned).expect(rt, "memory");
    }
    all
}

/// Whether a configuration has all that is in at a node and nothing that is out.
fn is_below(config: &Config, fix: &Fix) -> bool {
    let mut each = config.on.iter().zip(fix.state.iter()).take(CANDIDATES);
    each.all(|(on, state)| match *state {
        State::Free => true,
        State::In => *on,
        State::Out => !*on,
    })
}

/// No fitting configuration below the node costs less than the bound.
fn bounds_all(rt: &impl Abort, planned: &[Planned], budget: u64, fix: &Fix, bound: i128) {
    for one in planned {
        if one.pages <= budget && is_below(&one.config, fix) {
            assert!(rt; bound <= signed(one.total));
        }
    }
}

/// What is opened, with six of its candidates, from the middle of their list, which are on several tables.
#[tactic(auto, using(crate::proofs::Cutting::cut_limits))]
fn cut_setting<'a>(rt: &impl Abort, opened: &'a Opened) -> Setting<'a> {
    let shapes = opened.shapes.as_slice();
    assert!(rt; shapes.len() >= CANDIDATES);
    let first = (shapes.len() - CANDIDATES) / 2;
    Setting {
        cat: &opened.cat,
        statements: opened.statements.as_slice(),
        shapes: &shapes[first..first + CANDIDATES],
    }
}

/// A setting with its programme and its configurations.
#[derive(Drop)]
struct Tried<'a> {
    setting: Setting<'a>,
    programme: Programme,
    planned: Vec<Planned>,
}

impl Tried<'_> {
    /// At every node `bound` tells the Lagrangian value, and no fitting configuration below costs less.
    fn compare_within(
        &self,
        rt: &impl Abort,
        figures: &Figures,
        multipliers: &Multipliers,
        budget: u64,
    )
        requires { AreMultipliers self.now.programme multipliers.now }
    {
        assert!(rt; budget <= MOST_PAGES);
        for number in 0..NODES {
            let fix = node(number);
            let told = bound(&self.programme, budget, &fix, multipliers);
            assert!(rt;
                told == figures.value(budget, &fix),
                "node {number} within {budget}"
            );
            bounds_all(rt, self.planned.as_slice(), budget, &fix, told);
        }
    }

    /// The same for drawn multipliers of each scale, within the pages of three candidates and of four.
    fn compare(&self, rt: &impl Abort, alloc: Global, draws: &mut Draws) {
        let setting = &self.setting;
        let three = config_pages(setting.cat, setting.shapes, &numbered_set(0b001011));
        let four = config_pages(setting.cat, setting.shapes, &numbered_set(0b110110));
        for scale in SCALES.iter() {
            let readers = readers_of(rt, alloc, setting, draws, *scale);
            let figures = figures_of(rt, alloc, setting, readers.as_slice(), scale.page);
            let rents = rents_in_order(rt, alloc, readers.as_slice());
            let multipliers = multipliers_of(rt, &self.programme, rents, scale.page);
            self.compare_within(rt, &figures, &multipliers, three);
            self.compare_within(rt, &figures, &multipliers, four);
        }
    }
}

/// Compares bounds on what two texts describe.
fn try_texts(rt: &impl Abort, alloc: Global, cat: &[u8], load: &[u8], draws: &mut Draws) {
    let opened = open(rt, alloc, cat, load);
    let setting = cut_setting(rt, &opened);
    let tried = Tried {
        setting,
        programme: programme(alloc, &setting).ok().expect(rt, "a programme"),
        planned: all_planned(rt, alloc, &setting),
    };
    tried.compare(rt, alloc, draws);
}

#[test]
fn bounds_of_sales_are_those_of_a_plain_program(rt: HostRuntime) {
    let mut draws = Draws { state: 1 };
    try_texts(
        &rt,
        rt.alloc(),
        SHOP.as_bytes(),
        SALES.as_bytes(),
        &mut draws,
    );
}

/// Four statements over three tables, made from each seed.
#[test]
fn bounds_of_made_workloads_are_those_of_a_plain_program(rt: HostRuntime) {
    let alloc = rt.alloc();
    let mut draws = Draws { state: 2 };
    for seed in [1, 20] {
        let texts = make(alloc, seed, 3, 4).expect(&rt, "memory");
        let cat = texts.catalogue.as_slice();
        try_texts(&rt, alloc, cat, texts.workload.as_slice(), &mut draws);
    }
}
