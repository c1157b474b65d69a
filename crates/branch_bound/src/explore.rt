//! The tree of a search, explored depth first.
ghost use Rattle.std.specs.Prelude.{◌≡◌, ◌+◌, ◌<◌, ◌≤◌, [], ◌∷◌, ◌++◌, length, vec_len};
ghost use Rattle.std.specs.Vec.{vec_capacity};
ghost use Rattle.adv_base.specs.Configs.{IsApart};
ghost use Rattle.adv_base.specs.declared.limits.TheConstants.{MOST_CANDIDATES};
ghost use Rattle.bip_model.specs.declared.answer.Node.{Node};
ghost use Rattle.bip_model.specs.declared.fix.State.TheVariants.{Out};
ghost use Rattle.branch_bound.specs.Sides as sides;
ghost use Rattle.branch_bound.specs.inner.Runs as runs;

use crate::fixing::fixed;
use crate::found::Found;
use crate::frame::Frame;
use crate::ledgers::Ledgers;
use crate::node::{Fate, fate_of, lag, visited};
use adv_base::is_apart;
use bip_model::{Fix, Node, State, value};

/// Appends a node, for which there is room.
fn append(tree: &mut Vec<Node>, node: Node)
    requires { vec_len tree.old < vec_capacity tree.old }
    ensures items { tree.new.items ≡ tree.old.items ++ node ∷ [] }
    ensures len { vec_len tree.new ≡ vec_len tree.old + 1 }
    ensures room { vec_capacity tree.old ≤ vec_capacity tree.new }
{
    match tree.push(node) {
        Ok(()) => {}
        Err(_) => unreachable!(),
    }
}

/// What was found, with a leaf at which the search gives up, under the set of this number.
fn given_up(frame: &Frame<'_>, fix: &Fix, found: Found, set: u8, ledgers: &mut Ledgers) -> Found
    requires set { set ≤ length frame.now.sets.now }
    requires ledgers { runs.AreLedgers (runs.rules_of frame.now) ledgers.old.each.items }
    ensures ledgers { runs.AreLedgers (runs.rules_of frame.now) ledgers.new.each.items }
    ensures exact { result ≡ runs.lowered found (runs.lag (runs.rules_of frame.now) fix.now set) }
{
    Found {
        config: found.config,
        cost: found.cost,
        low: found.low.min(lag(frame, fix, set, ledgers)),
        made: found.made,
    }
}

/// What was found, with the two nodes of a branch made.
fn branched(found: Found, nodes: u32) -> Found
    requires { found.made + 2 ≤ nodes }
    ensures { result ≡ runs.branched found }
{
    Found {
        config: found.config,
        cost: found.cost,
        low: found.low,
        made: found.made + 2,
    }
}

/// Where the sides of a branch stand in the plan; past it where the plan hasn't this branch.
#[derive(Clone, Copy)]
struct SidePlaces {
    inside: usize,
    outside: usize,
}

/// The places of both sides of a branch on a candidate at a place of the plan.
fn side_places(frame: &Frame<'_>, place: usize, index: usize) -> SidePlaces {
    let step = frame.step(place);
    if step.candidate as usize == index.wrapping_add(1) {
        SidePlaces {
            inside: place.wrapping_add(1),
            outside: step.outside as usize,
        }
    } else {
        SidePlaces {
            inside: usize::MAX,
            outside: usize::MAX,
        }
    }
}

/// The out-side of a branch, at which is in what was before.
fn outside(frame: &Frame<'_>, fix: &Fix, index: usize) -> Fix
    requires choice { runs.IsChoice (runs.rules_of frame.now) fix.now index }
    requires within { index < MOST_CANDIDATES }
    ensures exact { result ≡ sides.fixed fix.now index Out }
    ensures inside { sides.inside result ≡ sides.inside fix.now }
{
    fixed(fix, index, State::Out)
}

/// What a walk writes on its way: the tree, and the ledgers of its sets.
#[derive(Drop)]
pub(crate) struct Walk {
    pub tree: Vec<Node>,
    pub ledgers: Ledgers,
}

/// Explores what is below the in-side of a branch as `explore` does; where two of what is in there are clustered on one
/// table, its tree is a leaf that is overfull.
#[cycle(explore)]
fn explore_inside(
    frame: &Frame<'_>,
    fix: &Fix,
    before: Found,
    place: usize,
    walk: &mut Walk,
) -> Found
    requires pending { vec_len walk.old.tree < before.made }
    requires made { before.made ≤ frame.now.nodes }
    requires room { frame.now.nodes ≤ vec_capacity walk.old.tree }
    requires ledgers { runs.AreLedgers (runs.rules_of frame.now) walk.old.ledgers.each.items }
    ensures explored { runs.IsExplored (runs.rules_of frame.now) fix.now before walk.old.tree.items result walk.new.tree.items }
    ensures count { vec_len walk.new.tree + before.made ≡ vec_len walk.old.tree + 1 + result.made }
    ensures more { before.made ≤ result.made }
    ensures most { result.made ≤ frame.now.nodes }
    ensures room { vec_capacity walk.old.tree ≤ vec_capacity walk.new.tree }
    ensures ledgers { runs.AreLedgers (runs.rules_of frame.now) walk.new.ledgers.each.items }
{
    let inside = fix.inside();
    if !is_apart(frame.shapes, &inside) {
        append(&mut walk.tree, Node::Overfull);
        return before;
    }
    let cost = value(frame.programme, &inside);
    explore(frame, fix, cost, before, place, walk)
}

/// Explores what is below a node that was made, and appends its tree in preorder. What is in there costs so much, and
/// it has this place in the plan.
#[cycle(explore)]
pub(crate) fn explore(
    frame: &Frame<'_>,
    fix: &Fix,
    cost: u128,
    before: Found,
    place: usize,
    walk: &mut Walk,
) -> Found
    requires apart { IsApart frame.now.shapes.now (sides.inside fix.now) }
    requires cost { cost ≡ sides.total frame.now.programme.now fix.now }
    requires pending { vec_len walk.old.tree < before.made }
    requires made { before.made ≤ frame.now.nodes }
    requires room { frame.now.nodes ≤ vec_capacity walk.old.tree }
    requires ledgers { runs.AreLedgers (runs.rules_of frame.now) walk.old.ledgers.each.items }
    ensures explored { runs.IsExplored (runs.rules_of frame.now) fix.now before walk.old.tree.items result walk.new.tree.items }
    ensures count { vec_len walk.new.tree + before.made ≡ vec_len walk.old.tree + 1 + result.made }
    ensures more { before.made ≤ result.made }
    ensures most { result.made ≤ frame.now.nodes }
    ensures room { vec_capacity walk.old.tree ≤ vec_capacity walk.new.tree }
    ensures ledgers { runs.AreLedgers (runs.rules_of frame.now) walk.new.ledgers.each.items }
{
    let found = visited(fix, cost, before);
    match fate_of(frame, fix, &found, place, &mut walk.ledgers) {
        Fate::Closed(set) => {
            append(&mut walk.tree, Node::Bounded(set));
            found
        }
        Fate::Forced(set) => {
            append(&mut walk.tree, Node::Bounded(set));
            given_up(frame, fix, found, set, &mut walk.ledgers)
        }
        Fate::Branch(index) => {
            append(&mut walk.tree, Node::Branch(index as u16 + 1));
            let places = side_places(frame, place, index);
            let within = fixed(fix, index, State::In);
            let inner = branched(found, frame.nodes);
            let middle = explore_inside(frame, &within, inner, places.inside, walk);
            let without = outside(frame, fix, index);
            explore(frame, &without, cost, middle, places.outside, walk)
        }
    }
}
