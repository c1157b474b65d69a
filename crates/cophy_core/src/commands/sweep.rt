//! `sweep`: which candidates to make within each of several budgets of pages.
ghost use Rattle.std.specs.Prelude.{◌≡◌, ◌+◌, ◌-◌, ◌*◌, ◌≤◌, ◌++◌, decimal, length, string_bytes, option_map, IfOk, IfErr, Some};
ghost use Rattle.adv_base.specs.declared.limits.TheConstants.{MOST_NODES, MOST_PAGES};
ghost use Rattle.adv_base.specs.Settings.{the_setting};
ghost use Rattle.bip_model.specs.declared.point.Point as points;
ghost use Rattle.bip_model.specs.StandsFor.{StandsFor};
ghost use Rattle.certificate.specs.Answers as answers;
ghost use Rattle.report.specs.Texts.{FitsSetting};
ghost use Rattle.cophy_core.specs.Causes.{IsBounded};
ghost use Rattle.cophy_core.specs.Endings.{plain_puts};
ghost use Rattle.cophy_core.specs.Stops.{StopsAt, LacksProgramme};
ghost use Rattle.cophy_core.specs.commands.Sweep as spec;
ghost use Rattle.cophy_core.specs.inner.PointCertificates as inner;

use crate::commands::advise::has_all_flags;
use crate::programmes::programme_of;
use crate::stop::Stop;
use crate::worked::{FilePut, Worked};
use adv_base::{List, NoMemory, Setting};
use bip_model::{Point, Programme, shown_bounds};
use budget_sweep::curves_bound;
use certificate::{
    best_answers_keep_limits, standing_programmes_are_in_order, version_of, write_cert,
};
use report::Done;
use std::alloc::Global;

/// The configuration of each point has a flag for each candidate that there may be.
fn have_all_flags(points: &[Point])
    ensures { inner.HaveAllFlags points.now }
{
    'points: for at in 0..points.len() {
        has_all_flags(&points[at].answer.config);
    }
}

/// The name of a point's certificate: what all begin with, and the point's number.
fn certificate_name(alloc: Global, prefix: &str, number: u32) -> Result<String, NoMemory>
    ensures { IfOk result (λ name. string_bytes name ≡ prefix.now ++ decimal number) }
{
    let name = format!(in alloc; "{prefix}{number}")?;
    Ok(name)
}

/// The certificate of a point, to be put into the file of its number.
fn certificate_put(
    alloc: Global,
    setting: &Setting<'_>,
    programme: &Programme,
    point: &Point,
    prefix: &str,
    number: u32,
) -> Result<FilePut, NoMemory>
    requires limits { answers.AnswerLimits programme.now point.now.budget point.now.answer }
    requires order { answers.InOrder programme.now }
    ensures { IfOk result (inner.IsCertificateOfPoint (the_setting setting.now) programme.now point.now (prefix.now ++ decimal number)) }
{
    let bytes = write_cert(
        alloc,
        programme,
        version_of(setting.shapes),
        point.budget,
        &point.answer,
    )?;
    let name = certificate_name(alloc, prefix, number)?;
    Ok(FilePut { name, bytes })
}

/// Those of all points, numbered from 1.
fn certificates(
    alloc: Global,
    setting: &Setting<'_>,
    programme: &Programme,
    points: &[Point],
    prefix: &str,
) -> Result<List<FilePut>, NoMemory>
    requires stands { StandsFor (the_setting setting.now) programme.now }
    requires few { length points.now ≤ 16 }
    requires limits { inner.KeepLimits programme.now points.now }
    requires order { answers.InOrder programme.now }
    ensures { IfOk result (λ puts. spec.AreCertificates (the_setting setting.now) prefix.now 1 points.now (plain_puts puts)) }
{
    let mut items = Vec::new(alloc);
    'points: for at in 0..points.len() {
        let put = certificate_put(
            alloc,
            setting,
            programme,
            &points[at],
            prefix,
            at as u32 + 1,
        )?;
        items.push(put)?;
    }
    Ok(List { items })
}

/// The certificates of points, to be put where a prefix of their names is given.
fn certified(
    alloc: Global,
    setting: &Setting<'_>,
    programme: &Programme,
    points: &[Point],
    cert: Option<&str>,
) -> Result<List<FilePut>, NoMemory>
    requires stands { StandsFor (the_setting setting.now) programme.now }
    requires few { length points.now ≤ 16 }
    requires limits { inner.KeepLimits programme.now points.now }
    requires order { answers.InOrder programme.now }
    ensures { IfOk result (λ puts. spec.PutsFor (option_map (λ name. name.now) cert.entry) (the_setting setting.now) points.now (plain_puts puts)) }
{
    match cert {
        Some(prefix) => certificates(alloc, setting, programme, points, prefix),
        None => Ok(List::new(alloc)),
    }
}

/// The answer with the best sets of candidates for `count` budgets, from `first` pages in steps of `step`, each found by a
/// search of at most `nodes` nodes over one programme, and what more space would buy: the least cost up to each budget, and the
/// greatest bound from there on. Where a prefix of their names is given, the certificate of each point is to be put into the file of
/// that prefix and the point's number. Or the first refusal: a statement with too many combinations of interesting orders.
pub(crate) fn sweep(
    alloc: Global,
    setting: &Setting<'_>,
    first: u64,
    step: u64,
    count: u32,
    nodes: u32,
    cert: Option<&str>,
) -> Result<Worked, Stop>
    requires some_step { 1 ≤ step }
    requires some { 1 ≤ count }
    requires most { count ≤ 16 }
    requires last { first + step * (count - 1) ≤ MOST_PAGES }
    requires some_node { 1 ≤ nodes }
    requires nodes { nodes ≤ MOST_NODES }
    ensures gives { IfOk result (λ worked. spec.Gives first step count nodes (the_setting setting.now) worked.done) }
    ensures puts { IfOk result (λ worked. spec.Puts (option_map (λ name. name.now) cert.entry) (the_setting setting.now) worked.done (plain_puts worked.puts)) }
    ensures fits { IfOk result (λ worked. FitsSetting (Some (the_setting setting.now)) worked.done) }
    ensures bound { IfOk result (λ worked. IsBounded worked.done) }
    ensures stop { IfErr result (StopsAt (LacksProgramme (the_setting setting.now))) }
{
    let programme = programme_of(alloc, setting)?;
    let points = budget_sweep::sweep(alloc, &programme, setting.shapes, first, step, count, nodes)?;
    curves_bound();
    shown_bounds();
    let curve = points.as_slice();
    have_all_flags(curve);
    best_answers_keep_limits();
    standing_programmes_are_in_order();
    let puts = certified(alloc, setting, &programme, curve, cert)?;
    Ok(Worked {
        done: Done::Swept(points),
        puts,
    })
}
