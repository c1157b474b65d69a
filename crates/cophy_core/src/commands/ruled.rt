//! `ruled`: which candidates to make within a budget of pages, under an administrator's rules.
ghost use Rattle.std.specs.Prelude.{◌≢◌, ◌≤◌, length, option_map, IfOk, IfErr, Some};
ghost use Rattle.adv_base.specs.declared.limits.TheConstants.{MOST_FILE_BYTES, MOST_NODES, MOST_PAGES};
ghost use Rattle.dba_rules.specs.declared.fault.RuleFault.TheVariants as faults;
ghost use Rattle.dba_rules.specs.Rules.{IsFreePast};
ghost use Rattle.adv_base.specs.Settings.{the_setting};
ghost use Rattle.report.specs.Texts.{FitsSetting};
ghost use Rattle.candidates.specs.Candidates.{AreCandidates};
ghost use Rattle.cophy_core.specs.Causes.{IsBounded};
ghost use Rattle.cophy_core.specs.Endings.{plain_puts};
ghost use Rattle.cophy_core.specs.Stops.{StopsAt};
ghost use Rattle.cophy_core.specs.commands.Ruled as spec;

use crate::commands::advise::{advice_below, certified};
use crate::programmes::programme_of;
use crate::stop::Stop;
use crate::worked::Worked;
use adv_base::Setting;
use bip_model::Fix;
use certificate::{best_answers_keep_limits, standing_programmes_are_in_order};
use dba_rules::{RuleFault, in_count, out_count, read_rules, settle};
use report::{Done, Ruled};
use std::alloc::Global;

/// The root of a search that rules make for a setting, where what has to be fits the budget; or the first fault of the rules,
/// and then of that.
fn settled_root(
    alloc: Global,
    setting: &Setting<'_>,
    rules: &[u8],
    budget: u64,
) -> Result<Fix, RuleFault>
    requires { length rules.now ≤ MOST_FILE_BYTES }
    ensures root { IfOk result (spec.IsRootOf (the_setting setting.now) rules.now budget) }
    ensures past { IfOk result (IsFreePast setting.now.shapes.now) }
    ensures fault { IfErr result (λ fault. fault ≢ faults.Memory → spec.HasRuleFault (the_setting setting.now) rules.now budget fault) }
{
    let root = read_rules(alloc, setting, rules)?;
    match settle(setting, &root, budget) {
        Ok(()) => Ok(root),
        Err(fault) => Err(fault),
    }
}

/// The answer with the best advice under the rules that the bytes of a file are, and how many candidates they make in and
/// out. Where a file is named for it, the certificate that shows it is to be put there. Or the first refusal: a fault of the
/// rules, what has to be and doesn't fit, a statement with too many combinations of interesting orders.
pub(crate) fn ruled(
    alloc: Global,
    setting: &Setting<'_>,
    left_over: u64,
    rules: &[u8],
    budget: u64,
    nodes: u32,
    cert: Option<&str>,
) -> Result<Worked, Stop>
    requires found { AreCandidates setting.now.cat.now setting.now.statements.now setting.now.shapes.now left_over }
    requires rules { length rules.now ≤ MOST_FILE_BYTES }
    requires budget { budget ≤ MOST_PAGES }
    requires some { 1 ≤ nodes }
    requires nodes { nodes ≤ MOST_NODES }
    ensures gives { IfOk result (λ worked. spec.Gives budget nodes rules.now (the_setting setting.now) worked.done) }
    ensures puts { IfOk result (λ worked. spec.Puts (option_map (λ name. name.now) cert.entry) (the_setting setting.now) worked.done (plain_puts worked.puts)) }
    ensures fits { IfOk result (λ worked. FitsSetting (Some (the_setting setting.now)) worked.done) }
    ensures bound { IfOk result (λ worked. IsBounded worked.done) }
    ensures stop { IfErr result (StopsAt (spec.Refuses budget rules.now (the_setting setting.now))) }
{
    let root = settled_root(alloc, setting, rules, budget)?;
    let programme = programme_of(alloc, setting)?;
    let advice = advice_below(
        alloc, setting, &programme, &root, left_over, budget, nodes, None,
    )?;
    best_answers_keep_limits();
    standing_programmes_are_in_order();
    let puts = certified(alloc, setting, &programme, budget, &advice.answer, cert)?;
    Ok(Worked {
        done: Done::Ruled(Ruled {
            must: in_count(&root),
            never: out_count(&root),
            advice,
        }),
        puts,
    })
}
