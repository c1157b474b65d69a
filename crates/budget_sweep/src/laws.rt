//! Laws of curves, each proved of all settings.
ghost use Rattle.budget_sweep.specs.Laws.{CurvesFall, FitsLarger, GapsAreOwn, PointsBound};

/// At each point of a curve some set of candidates that fits costs `best`, and every set that fits costs at least `low`. Where
/// `low` is below `best`, the bound of the point's own answer is below its cost.
pub fn curves_bound()
    ensures bound { PointsBound }
    ensures gap { GapsAreOwn }
{}

/// A set that fits a budget fits a larger one; so `best` and `low` never rise with the budget.
pub fn curves_fall()
    ensures fits { FitsLarger }
    ensures fall { CurvesFall }
{}
