//! Why no answer was worked out.
ghost use Rattle.std.specs.Prelude.{◌≡◌, None};
ghost use Rattle.report.specs.Texts.{FitsSetting};
ghost use Rattle.binder.specs.declared.fault.BindFault.TheVariants as bind;
ghost use Rattle.catalogue.specs.declared.fault.CatFault.TheVariants as cat;
ghost use Rattle.dba_rules.specs.declared.fault.RuleFault.TheVariants as rules;
ghost use Rattle.report.specs.declared.done.Refusal.TheVariants.{Cat as RefusedCat, Sql as RefusedSql, Bind as RefusedBind, Rules as RefusedRules};
ghost use Rattle.sql_reader.specs.declared.parsed.SqlFault.TheVariants as sql;
ghost use Rattle.cophy_core.specs.Causes.{IsBounded};
ghost use Rattle.cophy_core.specs.Stops.{done_of, IsStopOf};
ghost use Rattle.cophy_core.specs.declared.stop.Stop.TheVariants.{Memory as OutOfMemory};

use adv_base::NoMemory;
use binder::BindFault;
use catalogue::CatFault;
use dba_rules::RuleFault;
use report::{Done, Refusal, Role};
use sql_reader::SqlFault;

/// Why the work for an answer stopped.
#[derive(Clone, Copy, Debug, PartialEq, Eq)]
pub(crate) enum Stop {
    /// Memory ran out.
    Memory,
    /// The file in a role could not be read.
    Failed(Role),
    /// The input is refused.
    Refused(Refusal),
}

impl From<NoMemory> for Stop {
    ghost from_gives = { λ _ stop. stop ≡ OutOfMemory };

    fn from(_: NoMemory) -> Self {
        Stop::Memory
    }
}

impl From<CatFault> for Stop {
    ghost from_gives = { λ fault stop. IsStopOf cat.Memory RefusedCat fault stop };

    fn from(fault: CatFault) -> Self {
        match fault {
            CatFault::Memory => Stop::Memory,
            other => Stop::Refused(Refusal::Cat(other)),
        }
    }
}

impl From<SqlFault> for Stop {
    ghost from_gives = { λ fault stop. IsStopOf sql.Memory RefusedSql fault stop };

    fn from(fault: SqlFault) -> Self {
        match fault {
            SqlFault::Memory => Stop::Memory,
            other => Stop::Refused(Refusal::Sql(other)),
        }
    }
}

impl From<BindFault> for Stop {
    ghost from_gives = { λ fault stop. IsStopOf bind.Memory RefusedBind fault stop };

    fn from(fault: BindFault) -> Self {
        match fault {
            BindFault::Memory => Stop::Memory,
            other => Stop::Refused(Refusal::Bind(other)),
        }
    }
}

impl From<RuleFault> for Stop {
    ghost from_gives = { λ fault stop. IsStopOf rules.Memory RefusedRules fault stop };

    fn from(fault: RuleFault) -> Self {
        match fault {
            RuleFault::Memory => Stop::Memory,
            other => Stop::Refused(Refusal::Rules(other)),
        }
    }
}

impl Stop {
    /// The answer that the stop is.
    pub(crate) fn done(self) -> Done
        ensures done { result ≡ done_of self }
        ensures fits { FitsSetting None result }
        ensures bound { IsBounded result }
    {
        match self {
            Stop::Memory => Done::Memory,
            Stop::Failed(role) => Done::ReadFault(role),
            Stop::Refused(why) => Done::Refused(why),
        }
    }
}
