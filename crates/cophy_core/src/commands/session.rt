//! A session of retuning over a setting.
ghost use Rattle.std.specs.Prelude.{◌≡◌, ◌≤◌, length, IfOk, IfErr};
ghost use Rattle.adv_base.specs.Settings.{the_setting};
ghost use Rattle.adv_base.specs.declared.limits.TheConstants.{MOST_FILE_BYTES};
ghost use Rattle.candidates.specs.Growing.{IsProposed};
ghost use Rattle.programme_parts.specs.Combinations.{AreFew};
ghost use Rattle.cophy_core.specs.Settings.{AreStatementsOf};
ghost use Rattle.cophy_core.specs.Stops.{StopsAt, LacksProgramme};

use crate::stop::Stop;
use adv_base::Setting;
use binder::bind;
use candidates::Proposed;
use report::Refusal;
use retune::{RetuneFault, Session};
use sql_reader::read_workload;
use std::alloc::Global;

/// A session of the statements of a setting, which were read from these bytes and propose this.
pub(crate) fn session_of<'a>(
    alloc: Global,
    setting: &Setting<'a>,
    proposed: Proposed,
    load: &[u8],
) -> Result<Session<'a>, Stop>
    requires proposed { IsProposed setting.now.cat.now setting.now.statements.now proposed }
    requires read { AreStatementsOf setting.now.cat.now load.now setting.now.statements.now }
    requires short { length load.now ≤ MOST_FILE_BYTES }
    ensures cat { IfOk result (λ session. session.cat ≡ setting.now.cat.now) }
    ensures statements { IfOk result (λ session. session.statements ≡ setting.now.statements.now) }
    ensures few { IfOk result (λ _. AreFew setting.now.cat.now setting.now.statements.now) }
    ensures stop { IfErr result (StopsAt (LacksProgramme (the_setting setting.now))) }
{
    let parsed = read_workload(alloc, load)?;
    let statements = bind(alloc, setting.cat, &parsed)?;
    match Session::over(alloc, setting.cat, statements, proposed) {
        Ok(session) => Ok(session),
        Err(RetuneFault::TooManyCombinations(number, count)) => {
            Err(Stop::Refused(Refusal::TooManyCombinations(number, count)))
        }
        Err(RetuneFault::Memory) => Err(Stop::Memory),
        Err(
            RetuneFault::NoStatement(_)
            | RetuneFault::TooManyStatements
            | RetuneFault::TooManySlots,
        ) => unreachable!(),
    }
}
