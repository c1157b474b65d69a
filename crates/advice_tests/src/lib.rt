//! Tests of the public calls of `candidates`, `hypo_indexes`, `access_paths`, `tuning`, `gap_checker`, `dba_rules`, `retune` and `report`,
//! apart from them, so that they aren't proved twice: what is said of catalogues and workloads that are written down. And a test of
//! `lagrange_bound` on the programmes that `tuning` makes, against the planner.
#![tactic(auto)]

#[cfg(test)]
mod checks;
#[cfg(test)]
mod clashes;
#[cfg(test)]
mod clustered;
#[cfg(test)]
mod lagrangian;
#[cfg(test)]
mod opened;
#[cfg(test)]
mod pieces;
#[cfg(test)]
mod planned;
#[cfg(test)]
mod prices;
#[cfg(test)]
mod printed;
#[cfg(test)]
mod programmes;
#[cfg(test)]
mod proposals;
#[cfg(test)]
mod rented;
#[cfg(test)]
mod reports;
#[cfg(test)]
mod ruled;
#[cfg(test)]
mod sessions;
#[cfg(test)]
mod texts;
#[cfg(test)]
mod upkeep;
