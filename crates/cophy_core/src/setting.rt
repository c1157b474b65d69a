//! From the bytes of two files to a setting.
ghost use Rattle.std.specs.Prelude.{◌≡◌, ◌≤◌, IfOk, IfErr, length};
ghost use Rattle.adv_base.specs.Settings.{the_setting};
ghost use Rattle.adv_base.specs.declared.limits.TheConstants.{MOST_FILE_BYTES};
ghost use Rattle.candidates.specs.Growing.{IsProposed};
ghost use Rattle.cophy_core.specs.Opened.{setting_in};
ghost use Rattle.cophy_core.specs.Settings.{IsSetting, IsSettingRefusal};
ghost use Rattle.cophy_core.specs.Stops.{StopsAt};

use crate::opened::Opened;
use crate::stop::Stop;
use adv_base::Setting;
use binder::bind;
use candidates::Proposed;
use catalogue::read_catalogue;
use sql_reader::read_workload;
use std::alloc::Global;

impl Opened {
    /// The setting.
    pub(crate) fn setting(&self) -> Setting<'_>
        ensures { the_setting result ≡ setting_in self.now }
    {
        Setting {
            cat: &self.cat,
            statements: self.statements.as_slice(),
            shapes: self.shapes.as_slice(),
        }
    }
}

/// The setting that the bytes of a catalogue and of a workload describe, with the candidates that the workload proposes,
/// and all that it proposes; or the first refusal of them.
pub(crate) fn open(alloc: Global, cat: &[u8], load: &[u8]) -> Result<(Opened, Proposed), Stop>
    requires { length load.now ≤ MOST_FILE_BYTES }
    ensures setting { IfOk result (λ r. IsSetting cat.now load.now (setting_in r.0) r.0.left_over) }
    ensures proposed { IfOk result (λ r. IsProposed r.0.cat r.0.statements r.1) }
    ensures stop { IfErr result (StopsAt (IsSettingRefusal cat.now load.now)) }
{
    let catalogue = read_catalogue(alloc, cat)?;
    let parsed = read_workload(alloc, load)?;
    let statements = bind(alloc, &catalogue, &parsed)?;
    let proposed = Proposed::new(alloc, &catalogue, statements.as_slice())?;
    let found = proposed.candidates(alloc)?;
    let opened = Opened {
        cat: catalogue,
        statements,
        shapes: found.list,
        left_over: found.left_over,
    };
    Ok((opened, proposed))
}
