//! Tests of `adv_base`'s and `workload_gen`'s public calls, apart from both, so that these aren't proved twice.
#![tactic(auto)]

#[cfg(test)]
mod made;
#[cfg(test)]
mod words;
