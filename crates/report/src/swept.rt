//! The text of a sweep over budgets.
ghost use Rattle.std.specs.Prelude.{◌≡◌, ◌++◌, OnOk, length, option_map};
ghost use Rattle.adv_base.specs.Settings.{the_setting};
ghost use Rattle.report.specs.Sweeps.{has_no_gap, have_no_gap, place_words, answer_words, curve_words, point_line, point_lines, ending_line, curve_text, swept_text};

use crate::usage::{push_numbered, push_signed};
use adv_base::Setting;
use bip_model::{Answer, Point};
use hypo_indexes::config_pages;
use std::alloc::{AllocError, Global};

/// Whether a bound is the cost.
pub fn has_no_gap(cost: u128, bound: i128) -> bool
    ensures { result ≡ has_no_gap cost bound }
{
    bound >= 0 && bound as u128 == cost
}

/// Whether no gap is left at any point: the greatest bound is the least cost.
pub fn have_no_gap(points: &[Point]) -> bool
    ensures { result ≡ have_no_gap points.now }
{
    points.iter().all(|point| has_no_gap(point.best, point.low))
}

/// Adds the number of a point, its budget and the pages of what is picked.
#[tactic(auto, unfolding(crate::specs::Sweeps::place_words))]
fn push_place(
    alloc: Global,
    out: &mut Vec<u8>,
    number: u128,
    budget: u64,
    size: u64,
) -> Result<(), AllocError>
    ensures { OnOk result (out.new.items ≡ out.old.items ++ place_words number budget size) }
{
    push_numbered(alloc, out, b"point ", number)?;
    push_numbered(alloc, out, b" budget ", budget as u128)?;
    push_numbered(alloc, out, b" size ", size as u128)
}

/// Adds the cost and the bound of an answer.
#[tactic(auto, unfolding(crate::specs::Sweeps::answer_words))]
fn push_answer(alloc: Global, out: &mut Vec<u8>, answer: &Answer) -> Result<(), AllocError>
    ensures { OnOk result (out.new.items ≡ out.old.items ++ answer_words answer.now.cost answer.now.bound) }
{
    push_numbered(alloc, out, b" cost ", answer.cost)?;
    push_signed(alloc, out, b" bound ", answer.bound)
}

/// Adds the least cost, the greatest bound and the nodes of a search.
#[tactic(auto, unfolding(crate::specs::Sweeps::curve_words))]
fn push_curve(alloc: Global, out: &mut Vec<u8>, point: &Point) -> Result<(), AllocError>
    ensures { OnOk result (out.new.items ≡ out.old.items ++ curve_words point.now.best point.now.low (length point.now.answer.tree)) }
{
    push_numbered(alloc, out, b" best ", point.best)?;
    push_signed(alloc, out, b" low ", point.low)?;
    push_numbered(alloc, out, b" nodes ", point.answer.tree.len() as u128)
}

/// Adds the line of a point.
#[tactic(auto, unfolding(crate::specs::Sweeps::point_line))]
fn push_point(
    alloc: Global,
    out: &mut Vec<u8>,
    setting: &Setting<'_>,
    number: u128,
    point: &Point,
) -> Result<(), AllocError>
    ensures { OnOk result (out.new.items ≡ out.old.items ++ point_line (the_setting setting.now) number point.now) }
{
    let size = config_pages(setting.cat, setting.shapes, &point.answer.config);
    push_place(alloc, out, number, point.budget, size)?;
    push_answer(alloc, out, &point.answer)?;
    push_curve(alloc, out, point)?;
    out.extend_from_slice(b"\n")
}

/// Adds the lines of points.
fn push_points(
    alloc: Global,
    out: &mut Vec<u8>,
    setting: &Setting<'_>,
    points: &[Point],
) -> Result<(), AllocError>
    ensures { OnOk result (out.new.items ≡ out.old.items ++ point_lines (the_setting setting.now) 1 points.now) }
{
    'points: for at in 0..points.len() {
        push_point(alloc, out, setting, at as u128 + 1, &points[at])?;
    }
    Ok(())
}

/// Adds the line that says whether a gap is left at some point.
fn push_ending(out: &mut Vec<u8>, no_gap: bool) -> Result<(), AllocError>
    ensures { OnOk result (out.new.items ≡ out.old.items ++ ending_line no_gap) }
{
    if no_gap {
        out.extend_from_slice(b"finished\n")
    } else {
        out.extend_from_slice(b"stopped\n")
    }
}

/// Adds the text of a sweep over its setting.
fn push_swept_over(
    alloc: Global,
    out: &mut Vec<u8>,
    setting: &Setting<'_>,
    points: &[Point],
) -> Result<(), AllocError>
    ensures { OnOk result (out.new.items ≡ out.old.items ++ curve_text (the_setting setting.now) points.now) }
{
    push_points(alloc, out, setting, points)?;
    push_ending(out, have_no_gap(points))
}

/// Adds the text of a sweep, over the setting that is there.
pub(crate) fn push_swept(
    alloc: Global,
    out: &mut Vec<u8>,
    setting: Option<&Setting<'_>>,
    points: &[Point],
) -> Result<(), AllocError>
    ensures { OnOk result (out.new.items ≡ out.old.items ++ swept_text (option_map (λ s. the_setting s.now) setting.entry) points.now) }
{
    match setting {
        None => Ok(()),
        Some(setting) => push_swept_over(alloc, out, setting, points),
    }
}
