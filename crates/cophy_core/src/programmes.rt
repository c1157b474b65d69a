//! CoPhy's programme of a setting.
ghost use Rattle.std.specs.Prelude.{IfErr, IfOk};
ghost use Rattle.adv_base.specs.Settings.{the_setting};
ghost use Rattle.bip_model.specs.StandsFor.{StandsFor};
ghost use Rattle.programme_parts.specs.Combinations.{AreFew};
ghost use Rattle.cophy_core.specs.Stops.{StopsAt, LacksProgramme, IsTuneStop};

use crate::stop::Stop;
use adv_base::Setting;
use bip_model::Programme;
use report::Refusal;
use std::alloc::Global;
use tuning::{TuneFault, programme};

/// The stop where a setting has no programme.
fn tune_stop(fault: TuneFault) -> Stop
    ensures { IsTuneStop fault result }
{
    match fault {
        TuneFault::Memory => Stop::Memory,
        TuneFault::TooManyCombinations(number, count) => {
            Stop::Refused(Refusal::TooManyCombinations(number, count))
        }
    }
}

/// CoPhy's programme of a setting. Or the refusal of the first statement with too many combinations of interesting orders.
pub(crate) fn programme_of(alloc: Global, setting: &Setting<'_>) -> Result<Programme, Stop>
    ensures stands { IfOk result (StandsFor (the_setting setting.now)) }
    ensures few { IfOk result (λ _. AreFew setting.now.cat.now setting.now.statements.now) }
    ensures stop { IfErr result (StopsAt (LacksProgramme (the_setting setting.now))) }
{
    match programme(alloc, setting) {
        Ok(programme) => Ok(programme),
        Err(fault) => Err(tune_stop(fault)),
    }
}
