//! Configurations and settings.
ghost use Rattle.adv_base.specs.Limits.Settings.{SettingLimits};

use crate::catalogue::Catalogue;
use crate::catalogue::index::IndexShape;
use crate::limits::MOST_CANDIDATES;
use crate::workload::Statement;

/// A set of candidates, a flag for each; candidates are counted from 1, flags from 0.
#[derive(Clone, Copy, Debug)]
pub struct Config {
    pub on: [bool; MOST_CANDIDATES],
}

impl Config {
    ghost use Rattle.std.specs.Prelude.{◌≡◌, false, replicate};
    ghost use Rattle.adv_base.specs.Configs as configs;

    /// The configuration without candidates.
    pub fn none() -> Config
        ensures { result.on ≡ replicate MOST_CANDIDATES false }
    {
        Config {
            on: [false; MOST_CANDIDATES],
        }
    }

    /// Whether it has the candidate of a number, counted from 1.
    pub fn has(&self, number: u16) -> bool
        ensures { result ≡ configs.has_candidate self.now number }
    {
        if number == 0 || number as usize > MOST_CANDIDATES {
            return false;
        }
        self.on[number as usize - 1]
    }
}

/// What advice is asked about: a catalogue, at most 1000 statements with at most 2000 slots in all, and at most 256
/// candidate indexes. The statements and candidates name tables and columns of the catalogue.
#[derive(Clone, Copy)]
pub struct Setting<'a> {
    pub cat: &'a Catalogue,
    pub statements: &'a [Statement],
    pub shapes: &'a [IndexShape],
    pub ghost limits: { SettingLimits cat.now statements.now shapes.now },
}
