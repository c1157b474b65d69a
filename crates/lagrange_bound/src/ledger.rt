//! Bounds under one set of multipliers, carried from node to node.
ghost use Rattle.std.specs.Prelude.{◌≡◌, ◌*◌, ◌<◌, ◌≤◌, IfOk};
ghost use Rattle.adv_base.specs.declared.limits.TheConstants.{MOST_CANDIDATES, MOST_PAGES};
ghost use Rattle.adv_base.specs.Nodes as nodes;
ghost use Rattle.bip_model.specs.Views as views;
ghost use Rattle.bip_model.specs.Views.{AreMultipliers};
ghost use Rattle.lagrange_bound.specs.Bounds as bounds;
ghost use Rattle.lagrange_bound.specs.Ledgers as ledgers;

use crate::bounds::value_of_plans;
use crate::candidates::available;
use crate::carrying::weighted_costs;
use crate::changed_parts::mark_changed;
use crate::cheaper::CheaperParts;
use crate::costs_anew::price_marked;
use crate::costs_by_lists::price_all;
use crate::earnings::Earned;
use crate::marked::Marked;
use crate::uses::used_rents;
use adv_base::limits::MOST_CANDIDATES;
use adv_base::{Config, NoMemory};
use bip_model::{Fix, Multipliers, NO_ROWS, Programme, Rows};
use std::alloc::Global;

/// What is kept of the bounds under one set of multipliers: the candidates that may be used at the node where it stands, what
/// the plan of each part costs there, the sum of weight times cost, a mark for each part, and what the rents of each candidate
/// bring in.
#[derive(Drop)]
pub struct Ledger {
    pub config: Config,
    pub least: Vec<u128>,
    pub plans: u128,
    pub marks: Vec<bool>,
    pub earned: Earned,
}

impl Ledger {
    /// A ledger that stands nowhere: 17 bytes for each part. Want of memory is the one error.
    pub fn new(alloc: Global, programme: &Programme) -> Result<Ledger, NoMemory>
        ensures { IfOk result (ledgers.HasRoom programme.now) }
    {
        Ok(Ledger {
            config: Config::none(),
            least: vec![in alloc; 0; programme.parts.len()]?,
            plans: 0,
            marks: vec![in alloc; false; programme.parts.len()]?,
            earned: [0; MOST_CANDIDATES],
        })
    }
}

/// Room to price parts in, which any ledger can use: rows for a part, and a place for each order of all parts.
#[derive(Drop)]
pub struct PriceRows {
    pub(crate) rows: Rows,
    pub least: Vec<u64>,
}

impl PriceRows {
    /// Room for the prices of a programme: 16 thousand bytes, and 8 for each order. Want of memory is the one error.
    pub fn new(alloc: Global, cheaper: &CheaperParts) -> Result<PriceRows, NoMemory>
        ensures { IfOk result (ledgers.HasPlaces cheaper.now) }
    {
        Ok(PriceRows {
            rows: NO_ROWS,
            least: vec![in alloc; 0; cheaper.prices.bases.len()]?,
        })
    }
}

/// Carries a ledger to where other candidates may be used.
#[tactic(auto, unfolding(bip_model::specs::Values::grant_count))]
fn moved(
    programme: &Programme,
    cheaper: &CheaperParts,
    multipliers: &Multipliers,
    config: &Config,
    ledger: &mut Ledger,
    rows: &mut Rows,
)
    requires cheaper { ledgers.AreCheaperParts programme.now cheaper.now }
    requires multipliers { AreMultipliers programme.now multipliers.now }
    requires ledger { ledgers.IsLedger programme.now multipliers.now ledger.old }
    ensures ledger { ledgers.IsLedger programme.now multipliers.now ledger.new }
    ensures config { ledger.new.config ≡ config.now }
{
    let flags = cheaper.flags.as_slice();
    let marks = ledger.marks.as_mut_slice();
    mark_changed(flags, &ledger.config, config, marks);
    let parts = programme.parts.as_slice();
    let starts = cheaper.starts.as_slice();
    let rents = multipliers.lambda.as_slice();
    let task = Marked {
        parts,
        starts,
        rents,
        config,
        marks,
    };
    let least = ledger.least.as_mut_slice();
    ledger.plans = price_marked(&task, ledger.plans, least, rows);
    ledger.config = *config;
}

/// The Lagrangian value of the node at which a ledger stands.
#[tactic(auto, unfolding(crate::specs::Bounds::lagrangian))]
fn value_at(
    programme: &Programme,
    budget: u64,
    fix: &Fix,
    multipliers: &Multipliers,
    ledger: &Ledger,
) -> i128
    requires budget { budget ≤ MOST_PAGES }
    requires multipliers { AreMultipliers programme.now multipliers.now }
    requires ledger { ledgers.IsLedger programme.now multipliers.now ledger.now }
    requires config { ledger.now.config ≡ nodes.available_in (views.space_in programme.now budget) (views.node_of fix.now) }
    ensures { result ≡ bounds.lagrangian programme.now budget fix.now multipliers.now }
{
    value_of_plans(
        programme,
        budget,
        fix,
        multipliers,
        ledger.plans,
        &ledger.earned,
    )
}

/// The Lagrangian value of a node, as `bound` tells it, to which a ledger is carried: a part is priced anew where a candidate
/// that can make it cheaper may be used at one of the two nodes alone. Takes no memory.
pub fn bound_by(
    programme: &Programme,
    cheaper: &CheaperParts,
    budget: u64,
    fix: &Fix,
    multipliers: &Multipliers,
    ledger: &mut Ledger,
    rows: &mut PriceRows,
) -> i128
    requires cheaper { ledgers.AreCheaperParts programme.now cheaper.now }
    requires budget { budget ≤ MOST_PAGES }
    requires multipliers { AreMultipliers programme.now multipliers.now }
    requires ledger { ledgers.IsLedger programme.now multipliers.now ledger.old }
    ensures value { result ≡ bounds.lagrangian programme.now budget fix.now multipliers.now }
    ensures ledger { ledgers.IsLedger programme.now multipliers.now ledger.new }
    ensures places { rows.new.least ≡ rows.old.least }
{
    let config = available(programme, budget, fix);
    moved(
        programme,
        cheaper,
        multipliers,
        &config,
        ledger,
        &mut rows.rows,
    );
    value_at(programme, budget, fix, multipliers, ledger)
}

/// Lets a ledger stand where these candidates may be used, under multipliers: all parts are priced by the lists.
#[tactic(auto, unfolding(bip_model::specs::Values::grant_count))]
fn priced(
    programme: &Programme,
    cheaper: &CheaperParts,
    multipliers: &Multipliers,
    config: &Config,
    ledger: &mut Ledger,
    rows: &mut PriceRows,
)
    requires cheaper { ledgers.AreCheaperParts programme.now cheaper.now }
    requires multipliers { AreMultipliers programme.now multipliers.now }
    requires room { ledgers.HasRoom programme.now ledger.old }
    requires places { ledgers.HasPlaces cheaper.now rows.old }
    ensures ledger { ledgers.IsLedger programme.now multipliers.now ledger.new }
    ensures config { ledger.new.config ≡ config.now }
    ensures places { ledgers.HasPlaces cheaper.now rows.new }
{
    let parts = programme.parts.as_slice();
    let rents = multipliers.lambda.as_slice();
    let least = rows.least.as_mut_slice();
    let costs = ledger.least.as_mut_slice();
    price_all(parts, &cheaper.prices, config, rents, least, costs);
    ledger.plans = weighted_costs(parts, costs);
    ledger.earned = used_rents(cheaper.uses.as_slice(), rents);
    ledger.config = *config;
}

/// The Lagrangian value of a node, as `bound` tells it, at which a ledger of these multipliers then stands: all parts are
/// priced by the lists. Takes no memory.
pub fn open_ledger(
    programme: &Programme,
    cheaper: &CheaperParts,
    budget: u64,
    fix: &Fix,
    multipliers: &Multipliers,
    ledger: &mut Ledger,
    rows: &mut PriceRows,
) -> i128
    requires cheaper { ledgers.AreCheaperParts programme.now cheaper.now }
    requires budget { budget ≤ MOST_PAGES }
    requires multipliers { AreMultipliers programme.now multipliers.now }
    requires room { ledgers.HasRoom programme.now ledger.old }
    requires places { ledgers.HasPlaces cheaper.now rows.old }
    ensures value { result ≡ bounds.lagrangian programme.now budget fix.now multipliers.now }
    ensures ledger { ledgers.IsLedger programme.now multipliers.now ledger.new }
    ensures room { ledgers.HasRoom programme.now ledger.new }
    ensures places { ledgers.HasPlaces cheaper.now rows.new }
{
    let config = available(programme, budget, fix);
    priced(programme, cheaper, multipliers, &config, ledger, rows);
    value_at(programme, budget, fix, multipliers, ledger)
}
