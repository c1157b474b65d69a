//! The space that a configuration takes, and which candidates it leaves open at a node of a search.
ghost use Rattle.bip_model.specs.Limits.Spaces.{SpaceLimits};

use crate::fix::Fix;
use crate::programme::Programme;
use adv_base::Config;
use adv_base::limits::MOST_CANDIDATES;

/// The space of candidates: the pages of each, of which there are at most 256, and a budget of pages.
/// Candidates are numbered from 1.
#[derive(Clone, Copy)]
pub struct Space<'a> {
    pub sizes: &'a [u64],
    pub budget: u64,
    pub ghost limits: { SpaceLimits sizes.now },
}

impl Programme {
    ghost use Rattle.std.specs.Prelude.{◌≡◌};
    ghost use Rattle.bip_model.specs.Views as views;

    /// The space of its candidates under a budget of pages.
    pub fn space(&self, budget: u64) -> Space<'_>
        ensures { views.the_space result ≡ views.space_in self.now budget }
    {
        Space {
            sizes: self.sizes.as_slice(),
            budget,
        }
    }
}

impl Space<'_> {
    ghost use Rattle.std.specs.Prelude.{◌≡◌, ◌*◌, ◌<◌, ◌≤◌, ◌↔◌, nat_le, IsTrue, false, if◌then◌else◌, length, slice_index_or};
    ghost use Rattle.adv_base.specs.Configs as configs;
    ghost use Rattle.adv_base.specs.Nodes as nodes;
    ghost use Rattle.adv_base.specs.declared.limits.TheConstants.{MOST_CANDIDATES, MOST_INDEX_PAGES};
    ghost use Rattle.bip_model.specs.Views as views;

    /// The pages of the candidate at a place that is chosen, and else 0.
    fn pages_if(&self, a: usize, chosen: bool) -> u64
        requires { a < length self.now.sizes.now }
        ensures exact { result ≡ (if chosen then slice_index_or self.now.sizes.now a 0 else 0) }
        ensures most { result ≤ MOST_INDEX_PAGES }
    {
        if chosen { self.sizes[a] } else { 0 }
    }

    /// The pages of a configuration.
    pub fn pages(&self, config: &Config) -> u64
        ensures exact { result ≡ configs.pages_in self.now.sizes.now config.now }
        ensures most { result ≤ MOST_CANDIDATES * MOST_INDEX_PAGES }
    {
        let mut sum = 0;
        for a in 0..self.sizes.len() {
            sum += self.pages_if(a, config.on[a]);
        }
        sum
    }

    /// The pages of the candidate of a number; 0 where there is none.
    pub fn size(&self, number: u16) -> u64
        ensures exact { result ≡ configs.size_in self.now.sizes.now number }
        ensures most { result ≤ MOST_INDEX_PAGES }
    {
        let at = (number as usize).saturating_sub(1);
        if at < self.sizes.len() {
            self.sizes[at]
        } else {
            0
        }
    }

    /// Whether the pages of a configuration are within the budget.
    pub fn has_space(&self, config: &Config) -> bool
        ensures { IsTrue result ↔ configs.HasSpace (views.the_space self.now) config.now }
    {
        self.pages(config) <= self.budget
    }

    /// The pages of what is in at a node.
    pub fn inside(&self, fix: &Fix) -> u64
        ensures exact { result ≡ configs.pages_in self.now.sizes.now (views.node_of fix.now).inside }
        ensures most { result ≤ MOST_CANDIDATES * MOST_INDEX_PAGES }
    {
        self.pages(&fix.inside())
    }

    /// Whether a candidate's pages fit by themselves.
    pub fn fits_alone(&self, number: u16) -> bool
        ensures { result ≡ nat_le (configs.size_in self.now.sizes.now number) self.now.budget }
    {
        self.size(number) <= self.budget
    }

    /// Whether a candidate's pages fit beside those of what is in at a node.
    pub fn fits_beside(&self, fix: &Fix, inside: u64, number: u16) -> bool
        requires exact { inside ≡ configs.pages_in self.now.sizes.now (views.node_of fix.now).inside }
        requires most { inside ≤ MOST_CANDIDATES * MOST_INDEX_PAGES }
        ensures { result ≡ configs.fits_beside (views.the_space self.now) (views.node_of fix.now).inside number }
    {
        inside + self.size(number) <= self.budget
    }

    /// Whether a candidate is open at a node: it is free there, and its pages fit beside what is in.
    pub fn is_open(&self, fix: &Fix, number: u16) -> bool
        ensures { result ≡ nodes.is_open_in (views.the_space self.now) (views.node_of fix.now) number }
    {
        let fits = self.fits_beside(fix, self.inside(fix), number);
        fix.is_free(number) && fits
    }

    /// Whether a candidate is in or open at a node, at which what is in has so many pages.
    fn is_available(&self, fix: &Fix, inside: u64, number: u16) -> bool
        requires exact { inside ≡ configs.pages_in self.now.sizes.now (views.node_of fix.now).inside }
        requires most { inside ≤ MOST_CANDIDATES * MOST_INDEX_PAGES }
        ensures { result ≡ nodes.is_available_in (views.the_space self.now) (views.node_of fix.now) number }
    {
        let fits = self.fits_beside(fix, inside, number);
        fix.is_in(number) || (fix.is_free(number) && fits)
    }

    /// The candidates that are in or open at a node.
    pub fn available(&self, fix: &Fix) -> Config
        ensures { result ≡ nodes.available_in (views.the_space self.now) (views.node_of fix.now) }
    {
        let inside = self.inside(fix);
        let mut on = [false; MOST_CANDIDATES];
        for a in 0..MOST_CANDIDATES {
            on[a] = self.is_available(fix, inside, a as u16 + 1);
        }
        Config { on }
    }
}
