//! Which candidates of a configuration are clustered on one table.
ghost use Rattle.std.specs.Prelude.{◌≡◌, ◌≤◌, ◌-◌, ◌↔◌, ◌&&◌, ℕ, IsTrue, false, length, slice_get, MatchOption};
ghost use Rattle.std.specs.Option.{option_map_or};
ghost use Rattle.adv_base.specs.Configs as configs;
ghost use Rattle.adv_base.specs.declared.limits.TheConstants.{MOST_CANDIDATES};

use crate::catalogue::index::IndexShape;
use crate::limits::MOST_CANDIDATES;
use crate::setting::Config;

/// Whether a configuration has the candidate of a number, and that is clustered.
fn is_clustered_member(shapes: &[IndexShape], config: &Config, number: u16) -> bool
    requires { 1 ≤ number }
    ensures { result ≡ (option_map_or (λ shape. shape.clustered) (slice_get shapes.now (number - 1)) false && configs.has_candidate config.now number) }
{
    let Some(shape) = shapes.get(number as usize - 1) else {
        return false;
    };
    shape.clustered && config.has(number)
}

/// Whether the candidates of two numbers are clustered on one table.
fn is_clash(shapes: &[IndexShape], first: u16, second: u16) -> bool
    requires first { 1 ≤ first }
    requires second { 1 ≤ second }
    ensures { result ≡ configs.is_clash shapes.now first second }
{
    let Some(one) = shapes.get(first as usize - 1) else {
        return false;
    };
    let Some(other) = shapes.get(second as usize - 1) else {
        return false;
    };
    one.clustered && other.clustered && one.table == other.table
}

/// Whether two members clash.
fn clashes(shapes: &[IndexShape], config: &Config, first: u16, second: u16) -> bool
    requires first { 1 ≤ first }
    requires second { 1 ≤ second }
    ensures { result ≡ configs.clashes shapes.now config.now first second }
{
    config.has(first) && config.has(second) && is_clash(shapes, first, second)
}

/// A lesser member with which the candidate of a number clashes.
fn lesser_clash(shapes: &[IndexShape], config: &Config, second: u16) -> Option<u16>
    requires { 1 ≤ second }
    ensures { MatchOption result ((a : ℕ) → ¬ (configs.Clashes shapes.now config.now a second)) (λ first. configs.Clashes shapes.now config.now first second) }
{
    if !is_clustered_member(shapes, config, second) {
        return None;
    }
    for first in 1..second {
        if clashes(shapes, config, first, second) {
            return Some(first);
        }
    }
    None
}

/// A configuration has a flag for each candidate that there may be.
fn has_all_flags(config: &Config)
    ensures { length config.now.on ≡ MOST_CANDIDATES }
{
    let _flags = config.on;
}

/// The first two candidates of a configuration that are clustered on one table: the second has the least number of those that
/// clash with a lesser one, which is the first. `None` exactly where no two are.
pub fn first_clash(shapes: &[IndexShape], config: &Config) -> Option<(u16, u16)>
    ensures { MatchOption result (configs.IsApart shapes.now config.now) (λ r. configs.IsFirstClash shapes.now config.now r.0 r.1) }
{
    has_all_flags(config);
    for second in 1..MOST_CANDIDATES as u16 + 1 {
        if let Some(first) = lesser_clash(shapes, config, second) {
            return Some((first, second));
        }
    }
    None
}

/// Whether no two candidates of a configuration are clustered on one table.
pub fn is_apart(shapes: &[IndexShape], config: &Config) -> bool
    ensures { IsTrue result ↔ configs.IsApart shapes.now config.now }
{
    first_clash(shapes, config).is_none()
}
