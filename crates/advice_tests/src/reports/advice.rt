//! The texts of prices, advice and sweeps.
ghost use Rattle.report.specs.Texts.{IsBoundedBy};

use crate::reports::asserts::assert_text;
use adv_base::{Catalogue, Config, List, Rates, Setting};
use bip_model::{Answer, Point};
use report::{Advice, Done, Prices};
use std::alloc::Global;
use std::process::Abort;

#[test]
fn a_size_stands_before_the_prices(rt: HostRuntime) {
    let done = Done::Priced(Prices {
        size: Some(4),
        costs: List::new(rt.alloc()),
        total: 0,
    });
    assert_text(&rt, rt.alloc(), &done, None, "size 4\ntotal 0\n");
}

/// The text of advice of so much, with such a bound, over no candidates.
fn assert_advice(rt: &impl Abort, alloc: Global, cost: u128, bound: i128, want: &str)
    requires { IsBoundedBy cost bound }
{
    let cat = Catalogue {
        rates: Rates::default(),
        tables: List::new(alloc),
    };
    let setting = Setting {
        cat: &cat,
        statements: &[],
        shapes: &[],
    };
    let done = Done::Advised(Advice {
        budget: 10,
        nodes: 20000,
        left_over: 7,
        answer: Answer {
            config: Config::none(),
            cost,
            bound,
            sets: List::new(alloc),
            tree: List::new(alloc),
            useful: 0,
        },
    });
    assert_text(rt, alloc, &done, Some(&setting), want);
}

#[test]
fn advice_is_told_with_its_gap(rt: HostRuntime) {
    assert_advice(
        &rt,
        rt.alloc(),
        5,
        5,
        "budget 10\ncandidates 0 left over 7\nsize 0\ncost 5\nbound 5\ngap 0\nnodes 0 of 20000\nfinished\n",
    );
    assert_advice(
        &rt,
        rt.alloc(),
        5,
        4,
        "budget 10\ncandidates 0 left over 7\nsize 0\ncost 5\nbound 4\ngap 1\nnodes 0 of 20000\nstopped\n",
    );
    assert_advice(
        &rt,
        rt.alloc(),
        5,
        -3,
        "budget 10\ncandidates 0 left over 7\nsize 0\ncost 5\nbound -3\ngap 8\nnodes 0 of 20000\nstopped\n",
    );
}

/// A point with an answer of so much, over no candidates.
fn point(alloc: Global, budget: u64, cost: u128, bound: i128, best: u128, low: i128) -> Point {
    Point {
        budget,
        answer: Answer {
            config: Config::none(),
            cost,
            bound,
            sets: List::new(alloc),
            tree: List::new(alloc),
            useful: 0,
        },
        best,
        low,
    }
}

/// The text of a sweep over no candidates.
fn assert_sweep(rt: &impl Abort, alloc: Global, points: List<Point>, want: &str) {
    let cat = Catalogue {
        rates: Rates::default(),
        tables: List::new(alloc),
    };
    let setting = Setting {
        cat: &cat,
        statements: &[],
        shapes: &[],
    };
    assert_text(rt, alloc, &Done::Swept(points), Some(&setting), want);
}

/// A gap is that of `best` and `low`, whatever the point's own answer says.
#[test]
fn points_are_told_with_their_own_bound_and_the_curves(rt: HostRuntime) {
    let alloc = rt.alloc();
    let mut items = Vec::new(alloc);
    items
        .push(point(alloc, 2, 50, -9, 48, -7))
        .expect(&rt, "memory");
    items
        .push(point(alloc, 6, 40, 39, 40, 39))
        .expect(&rt, "memory");
    assert_sweep(
        &rt,
        alloc,
        List { items },
        "point 1 budget 2 size 0 cost 50 bound -9 best 48 low -7 nodes 0\npoint 2 budget 6 size 0 cost 40 bound 39 best 40 low 39 nodes 0\nstopped\n",
    );
    let mut items = Vec::new(alloc);
    items
        .push(point(alloc, 2, 5, 3, 4, 4))
        .expect(&rt, "memory");
    assert_sweep(
        &rt,
        alloc,
        List { items },
        "point 1 budget 2 size 0 cost 5 bound 3 best 4 low 4 nodes 0\nfinished\n",
    );
}
