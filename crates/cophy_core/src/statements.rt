//! Statements: by their numbers, and what they cost in upkeep.
ghost use Rattle.std.specs.Prelude.{◌≡◌, ◌-◌, ◌+◌, ◌*◌, ◌≤◌, option_map, slice_get};
ghost use Rattle.adv_base.specs.Named.{NamesWork};
ghost use Rattle.adv_base.specs.Upkeep as upkeeps;
ghost use Rattle.adv_base.specs.declared.limits.TheConstants.{MOST_CANDIDATES, MOST_INDEXES, MOST_UPKEEP};

use adv_base::{Config, Setting, Statement};
use hypo_indexes::{config_upkeep, kept_upkeep};

/// The statement of a number, from 1.
pub(crate) fn statement_of(statements: &[Statement], number: u32) -> Option<&Statement>
    ensures { option_map (λ s. s.now) result ≡ slice_get statements.now (number - 1) }
{
    statements.get((number as usize).saturating_sub(1))
}

/// What a statement costs in upkeep of the indexes that exist and of a configuration's, without its weight.
pub(crate) fn upkeep_of(setting: &Setting<'_>, config: &Config, statement: &Statement) -> u128
    requires { NamesWork setting.now.cat.now statement.now.work }
    ensures exact { result ≡ upkeeps.kept_upkeep setting.now.cat.now statement.now.work
        + upkeeps.config_upkeep setting.now.cat.now setting.now.shapes.now config.now statement.now.work }
    ensures most { result ≤ (MOST_INDEXES + MOST_CANDIDATES) * MOST_UPKEEP }
{
    kept_upkeep(setting.cat, statement)
        + config_upkeep(setting.cat, statement, setting.shapes, config)
}
