//! The least costs of the points up to each, and the greatest bounds of those from each on.
ghost use Rattle.std.specs.Prelude.{◌≡◌, ◌+◌, ◌<◌, ◌++◌, ◌∷◌, [], length, map, slice_index_or, slice_set};
ghost use Rattle.budget_sweep.specs.Curves.{IsGreatestBound, IsLeastCost, answers_of};
ghost use Rattle.budget_sweep.specs.inner.Passes as passes;
ghost use Rattle.bip_model.specs.declared.point.Point.{Point};

use bip_model::{Answer, Point};

/// The least of an answer's cost and those of the points before it.
pub(crate) fn least_cost(points: &[Point], answer: &Answer) -> u128
    requires { passes.AreLeast points.now }
    ensures { IsLeastCost (answers_of points.now ++ answer.now ∷ []) (length points.now) result }
{
    match points.last() {
        None => answer.cost,
        Some(point) => point.best.min(answer.cost),
    }
}

/// The greatest of a point's bound and those of the points behind it.
fn greatest_bound(points: &[Point], number: usize) -> i128
    requires within { number < length points.now }
    requires behind { passes.AreGreatest points.now (number + 1) }
    ensures { IsGreatestBound (answers_of points.now) number result }
{
    let own = points[number].answer.bound;
    if number + 1 == points.len() {
        return own;
    }
    let behind = points[number + 1].low;
    own.max(behind)
}

/// Writes the bound of a point.
fn put_low(points: &mut [Point], number: usize, low: i128)
    requires { number < length points.old }
    ensures { (point : Point) → points.new ≡ slice_set points.old number (passes.with_low (slice_index_or points.old number point) low) }
{
    points[number].low = low;
}

/// Writes the greatest bounds, from the last point to the first.
pub(crate) fn put_lows(points: &mut [Point])
    ensures bare { map passes.bare points.new ≡ map passes.bare points.old }
    ensures greatest { passes.AreGreatest points.new 0 }
{
    let count = points.len();
    for round in 0..count {
        let number = count - 1 - round;
        let low = greatest_bound(points, number);
        put_low(points, number, low);
    }
}
