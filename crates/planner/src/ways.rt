//! What a search knows of its task before it knows any offer.
ghost use Rattle.planner.specs.Cuts.{AreWays};

use crate::cuts::{Cut, Merge};
use crate::front::{Front, Link};
use adv_base::Item;
use plan_model::Task;

/// The fronts of a task with the first item of what each asks for, its links, and the cuts of all sets: those of set s
/// stand from `starts[s]` to before `starts[s + 1]`. `covered` tells the sets that plans can cover.
#[derive(Drop)]
pub struct Ways<'a> {
    pub task: &'a Task,
    pub fronts: Vec<Front>,
    pub heads: Vec<Option<Item>>,
    pub links: Vec<Link>,
    pub cuts: Vec<Cut>,
    pub merges: Vec<Merge>,
    pub starts: Vec<usize>,
    pub covered: Vec<bool>,
    pub ghost known: { AreWays task.now fronts.items heads.items links.items cuts.items merges.items starts.items covered.items },
}
