//! `advise`: which candidates to make within a budget of pages.
ghost use Rattle.std.specs.Prelude.{◌≡◌, ◌≤◌, length, option_map, IfOk, IfErr, Some};
ghost use Rattle.adv_base.specs.declared.limits.TheConstants.{MOST_CANDIDATES, MOST_NODES, MOST_PAGES};
ghost use Rattle.bip_model.specs.StandsFor.{StandsFor};
ghost use Rattle.bip_model.specs.Views.{node_of};
ghost use Rattle.branch_bound.specs.Sides.{IsRoot};
ghost use Rattle.adv_base.specs.Settings.{the_setting};
ghost use Rattle.report.specs.Texts.{FitsSetting, IsBoundedBy};
ghost use Rattle.certificate.specs.Answers as answers;
ghost use Rattle.candidates.specs.Candidates.{AreCandidates};
ghost use Rattle.programme_parts.specs.Combinations.{AreFew};
ghost use Rattle.cophy_core.specs.Causes.{IsBounded};
ghost use Rattle.cophy_core.specs.Endings.{plain_puts};
ghost use Rattle.cophy_core.specs.Stops.{StopsAt, LacksProgramme};
ghost use Rattle.cophy_core.specs.commands.Advise as spec;

use crate::programmes::programme_of;
use crate::stop::Stop;
use crate::worked::{FilePut, Worked, one_put};
use adv_base::{Config, List, NoMemory, Setting};
use bip_model::{Answer, Fix, Programme, shown_bounds};
use branch_bound::{Earlier, Proposals, Room, search};
use certificate::{
    best_answers_keep_limits, standing_programmes_are_in_order, version_of, write_cert,
};
use report::{Advice, Done};
use std::alloc::Global;

/// A configuration has a flag for each candidate that there may be.
pub(crate) fn has_all_flags(config: &Config)
    ensures { length config.now.on ≡ MOST_CANDIDATES }
{
    let _flags = config.on;
}

/// The certificate of an answer, to be put into a file of that name.
fn certificate_put(
    alloc: Global,
    setting: &Setting<'_>,
    programme: &Programme,
    budget: u64,
    answer: &Answer,
    name: &str,
) -> Result<List<FilePut>, NoMemory>
    requires stands { StandsFor (the_setting setting.now) programme.now }
    requires limits { answers.AnswerLimits programme.now budget answer.now }
    requires order { answers.InOrder programme.now }
    ensures { IfOk result (λ puts. spec.IsCertificatePut (the_setting setting.now) budget answer.now name.now (plain_puts puts)) }
{
    let bytes = write_cert(alloc, programme, version_of(setting.shapes), budget, answer)?;
    let puts = one_put(alloc, name, bytes)?;
    Ok(puts)
}

/// The certificate of an answer, to be put where a file is named for it.
pub(crate) fn certified(
    alloc: Global,
    setting: &Setting<'_>,
    programme: &Programme,
    budget: u64,
    answer: &Answer,
    cert: Option<&str>,
) -> Result<List<FilePut>, NoMemory>
    requires stands { StandsFor (the_setting setting.now) programme.now }
    requires limits { answers.AnswerLimits programme.now budget answer.now }
    requires order { answers.InOrder programme.now }
    ensures { IfOk result (λ puts. spec.PutsFor (option_map (λ name. name.now) cert.entry) (the_setting setting.now) budget answer.now (plain_puts puts)) }
{
    match cert {
        Some(name) => certificate_put(alloc, setting, programme, budget, answer, name),
        None => Ok(List::new(alloc)),
    }
}

/// What a search works with beside its room, which recalls an earlier answer where there is one.
fn proposals_of(
    alloc: Global,
    programme: &Programme,
    nodes: u32,
    earlier: Option<&Earlier<'_>>,
) -> Result<Proposals, NoMemory> {
    match earlier {
        None => Proposals::new(alloc, programme, nodes),
        Some(earlier) => Proposals::after(alloc, programme, nodes, earlier),
    }
}

/// A best set of candidates below a root that together take at most `budget` pages, found by a search of at most so many
/// nodes (branch and bound over CoPhy's programme, which is the setting's), with what the workload costs under it and a bound
/// that no such set undercuts; both are the same unless the nodes were spent. `left_over` proposed indexes are no candidates.
/// What an earlier answer found is looked at first, and nothing rests on it.
pub(crate) fn advice_below(
    alloc: Global,
    setting: &Setting<'_>,
    programme: &Programme,
    root: &Fix,
    left_over: u64,
    budget: u64,
    nodes: u32,
    earlier: Option<&Earlier<'_>>,
) -> Result<Advice, NoMemory>
    requires found { AreCandidates setting.now.cat.now setting.now.statements.now setting.now.shapes.now left_over }
    requires stands { StandsFor (the_setting setting.now) programme.now }
    requires few { AreFew setting.now.cat.now setting.now.statements.now }
    requires root { IsRoot programme.now setting.now.shapes.now budget root.now }
    requires budget { budget ≤ MOST_PAGES }
    requires some { 1 ≤ nodes }
    requires nodes { nodes ≤ MOST_NODES }
    ensures advice { IfOk result (spec.IsAdviceFrom (node_of root.now) budget nodes (the_setting setting.now)) }
    ensures bounded { IfOk result (λ advice. IsBoundedBy advice.answer.cost advice.answer.bound) }
{
    let room = Room::new(alloc, programme, nodes)?;
    let mut proposed = proposals_of(alloc, programme, nodes, earlier)?;
    let answer = search(
        programme,
        setting.shapes,
        root,
        budget,
        nodes,
        room,
        &mut proposed,
    );
    shown_bounds();
    has_all_flags(&answer.config);
    Ok(Advice {
        budget,
        nodes,
        left_over,
        answer,
    })
}

/// The same of all sets of candidates that fit.
pub(crate) fn best_advice(
    alloc: Global,
    setting: &Setting<'_>,
    programme: &Programme,
    left_over: u64,
    budget: u64,
    nodes: u32,
    earlier: Option<&Earlier<'_>>,
) -> Result<Advice, NoMemory>
    requires found { AreCandidates setting.now.cat.now setting.now.statements.now setting.now.shapes.now left_over }
    requires stands { StandsFor (the_setting setting.now) programme.now }
    requires few { AreFew setting.now.cat.now setting.now.statements.now }
    requires budget { budget ≤ MOST_PAGES }
    requires some { 1 ≤ nodes }
    requires nodes { nodes ≤ MOST_NODES }
    ensures advice { IfOk result (spec.IsAdvice budget nodes (the_setting setting.now)) }
    ensures bounded { IfOk result (λ advice. IsBoundedBy advice.answer.cost advice.answer.bound) }
{
    let root = Fix::free();
    let advice = advice_below(
        alloc, setting, programme, &root, left_over, budget, nodes, earlier,
    )?;
    Ok(advice)
}

/// The advice on a setting. Or the first refusal: a statement with too many combinations of interesting orders.
pub(crate) fn advice_on(
    alloc: Global,
    setting: &Setting<'_>,
    left_over: u64,
    budget: u64,
    nodes: u32,
) -> Result<Advice, Stop>
    requires found { AreCandidates setting.now.cat.now setting.now.statements.now setting.now.shapes.now left_over }
    requires budget { budget ≤ MOST_PAGES }
    requires some { 1 ≤ nodes }
    requires nodes { nodes ≤ MOST_NODES }
    ensures advice { IfOk result (spec.IsAdvice budget nodes (the_setting setting.now)) }
    ensures bounded { IfOk result (λ advice. IsBoundedBy advice.answer.cost advice.answer.bound) }
    ensures stop { IfErr result (StopsAt (LacksProgramme (the_setting setting.now))) }
{
    let programme = programme_of(alloc, setting)?;
    let advice = best_advice(alloc, setting, &programme, left_over, budget, nodes, None)?;
    Ok(advice)
}

/// The answer with that advice. Where a file is named for it, the certificate that shows it is to be put there.
pub(crate) fn advise(
    alloc: Global,
    setting: &Setting<'_>,
    left_over: u64,
    budget: u64,
    nodes: u32,
    cert: Option<&str>,
) -> Result<Worked, Stop>
    requires found { AreCandidates setting.now.cat.now setting.now.statements.now setting.now.shapes.now left_over }
    requires budget { budget ≤ MOST_PAGES }
    requires some { 1 ≤ nodes }
    requires nodes { nodes ≤ MOST_NODES }
    ensures gives { IfOk result (λ worked. spec.Gives budget nodes (the_setting setting.now) worked.done) }
    ensures puts { IfOk result (λ worked. spec.Puts (option_map (λ name. name.now) cert.entry) (the_setting setting.now) worked.done (plain_puts worked.puts)) }
    ensures fits { IfOk result (λ worked. FitsSetting (Some (the_setting setting.now)) worked.done) }
    ensures bound { IfOk result (λ worked. IsBounded worked.done) }
    ensures stop { IfErr result (StopsAt (LacksProgramme (the_setting setting.now))) }
{
    let programme = programme_of(alloc, setting)?;
    let advice = best_advice(alloc, setting, &programme, left_over, budget, nodes, None)?;
    best_answers_keep_limits();
    standing_programmes_are_in_order();
    let puts = certified(alloc, setting, &programme, budget, &advice.answer, cert)?;
    Ok(Worked {
        done: Done::Advised(advice),
        puts,
    })
}
