//! Tests of the public calls of `plan_model`, `planner`, `interesting_orders` and `inum_cache`, apart from them, so that
//! they aren't proved twice: tasks that are worked out by hand, and made ones against a search that tries all plans.
#![tactic(auto)]

#[cfg(test)]
mod caches;
#[cfg(test)]
mod costs;
#[cfg(test)]
mod least_plans;
#[cfg(test)]
mod made;
#[cfg(test)]
mod orders;
#[cfg(test)]
mod table;
#[cfg(test)]
mod tasks;
