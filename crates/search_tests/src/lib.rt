//! Tests of the public calls of `bip_model`, `lagrange_bound`, `branch_bound`, `budget_sweep` and `certificate`, apart from
//! them, so that they aren't proved twice: programmes whose values, bounds and best configurations are worked out by hand or
//! by plain programs written apart, and the texts of certificates.
#![tactic(auto)]

#[cfg(test)]
mod bounds;
#[cfg(test)]
mod certificates;
#[cfg(test)]
mod made;
#[cfg(test)]
mod plain;
#[cfg(test)]
mod problems;
#[cfg(test)]
mod rented;
#[cfg(test)]
mod searches;
#[cfg(test)]
mod sweeps;
#[cfg(test)]
mod values;
