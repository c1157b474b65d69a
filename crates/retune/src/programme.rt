//! The candidates of statements, and the programme that stands for both.
ghost use Rattle.std.specs.Prelude.{[], IfOk};
ghost use Rattle.adv_base.specs.Limits.Settings.{SettingLimits};
ghost use Rattle.adv_base.specs.Settings.{the_setting};
ghost use Rattle.candidates.specs.Growing.{IsProposed};
ghost use Rattle.bip_model.specs.StandsFor.{AreEach, StandsFor, blocked_from};
ghost use Rattle.programme_parts.specs.Kept.{HasKept};
ghost use Rattle.retune.specs.Sessions.{IsTuned, the_session};
ghost use Rattle.programme_parts.specs.Caches.{AreCached};

use crate::parts::parts_by;
use adv_base::{Catalogue, IndexShape, NoMemory, Setting, Statement};
use bip_model::Programme;
use candidates::{Candidates, Proposed};
use inum_cache::Cache;
use programme_parts::programme_with_parts;
use std::alloc::Global;

/// The programme of a setting, by the caches of its statements.
fn programme_over(
    alloc: Global,
    setting: &Setting<'_>,
    caches: &[Option<Cache>],
) -> Result<Programme, NoMemory>
    requires { AreCached setting.now.cat.now setting.now.statements.now caches.now }
    ensures stands { IfOk result (StandsFor (the_setting setting.now)) }
    ensures kept { IfOk result (λ programme. AreEach (HasKept setting.now.cat.now) (blocked_from 1 setting.now.statements.now) programme.parts) }
{
    let parts = parts_by(alloc, setting, caches)?;
    programme_with_parts(alloc, setting, parts)
}

/// The programme of statements with candidates, by the caches of the statements.
fn programme_of(
    alloc: Global,
    cat: &Catalogue,
    statements: &[Statement],
    shapes: &[IndexShape],
    caches: &[Option<Cache>],
) -> Result<Programme, NoMemory>
    requires limits { SettingLimits cat.now statements.now shapes.now }
    requires cached { AreCached cat.now statements.now caches.now }
    ensures stands { IfOk result (StandsFor (record { cat = cat.now; statements = statements.now; shapes = shapes.now })) }
    ensures kept { IfOk result (λ programme. AreEach (HasKept cat.now) (blocked_from 1 statements.now) programme.parts) }
{
    let setting = Setting {
        cat,
        statements,
        shapes,
    };
    programme_over(alloc, &setting, caches)
}

/// The candidates of statements, by what these propose, and the programme that stands for both, by the caches of the statements.
pub(crate) fn made(
    alloc: Global,
    cat: &Catalogue,
    statements: &[Statement],
    caches: &[Option<Cache>],
    proposed: &Proposed,
) -> Result<(Candidates, Programme), NoMemory>
    requires limits { SettingLimits cat.now statements.now [] }
    requires cached { AreCached cat.now statements.now caches.now }
    requires proposed { IsProposed cat.now statements.now proposed.now }
    ensures { IfOk result (λ r. IsTuned (the_session cat.now statements.now r.0 r.1)) }
{
    let found = proposed.candidates(alloc)?;
    let programme = programme_of(alloc, cat, statements, found.list.as_slice(), caches)?;
    Ok((found, programme))
}
