//! Laws of bounds, each proved of all programmes.
ghost use Rattle.lagrange_bound.specs.Laws.{LagrangianIsIt, PlanCostsAreLeast, RentMultipliersAgree, RentsAreCovered};

/// Of a programme that stands for a setting, `bound` is the setting's Lagrangian value, at every node and for all
/// multipliers within their limits.
pub fn lagrangian_is_it()
    ensures { LagrangianIsIt }
{}

/// Under rent multipliers no candidate earns more than it costs.
pub fn rents_are_covered()
    ensures { RentsAreCovered }
{}

/// Of a programme that stands for a setting, `rent` writes the setting's rent multipliers.
pub fn rent_multipliers_agree()
    ensures { RentMultipliersAgree }
{}

/// Of a programme that stands for a setting, the terms of a node are what least plans of the setting's blocks cost there.
pub fn plan_costs_are_least()
    ensures { PlanCostsAreLeast }
{}
