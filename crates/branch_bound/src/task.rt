//! What a search is asked.
ghost use Rattle.std.specs.Prelude.{◌≡◌, ◌≤◌};
ghost use Rattle.adv_base.specs.declared.limits.TheConstants.{MOST_PAGES, MOST_SETS};
ghost use Rattle.branch_bound.specs.Sides as sides;
ghost use Rattle.branch_bound.specs.inner.Climbs as climbs;

use crate::climb::Costed;
use adv_base::limits::MOST_CANDIDATES;
use adv_base::{Config, IndexShape, is_apart};
use bip_model::{Fix, Programme};

/// The programme, its candidates, the budget of pages, the root of the search and the configuration that it has in,
/// which candidates are useful, and how many sets of multipliers a search may keep.
#[derive(Drop)]
pub(crate) struct Task<'a> {
    pub programme: &'a Programme,
    pub shapes: &'a [IndexShape],
    pub budget: u64,
    pub useful: &'a [bool; MOST_CANDIDATES],
    pub root: &'a Fix,
    pub bare: Costed,
    pub most: usize,
    pub ghost budget_most: { budget ≤ MOST_PAGES },
    pub ghost bare_inside: { bare.config ≡ sides.inside root.now },
    pub ghost bare_sound: { climbs.IsSoundHere programme.now shapes.now budget root.now bare },
    pub ghost most_sets: { most ≤ MOST_SETS },
}

impl Task<'_> {
    ghost use Rattle.std.specs.Prelude.{◌↔◌, IsTrue};

    /// Whether a configuration fits: its pages are within the budget, and no two of its candidates are clustered on one
    /// table.
    pub fn fits(&self, config: &Config) -> bool
        ensures { IsTrue result ↔ climbs.IsFitting self.now.programme.now self.now.shapes.now self.now.budget config.now }
    {
        self.programme.space(self.budget).has_space(config) && is_apart(self.shapes, config)
    }
}
