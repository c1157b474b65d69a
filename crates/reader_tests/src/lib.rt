//! Tests of the public calls of `adv_shelf`, `sql_tokens`, `sql_reader`, `catalogue`, `binder` and `workload_fold`, apart from them, so that
//! they aren't proved twice: files, and texts with their tokens, their statements, what their names mean, what they fold to, or their faults.
//!
//! Cases are data: each table has a case a line and one function that walks it.
#![tactic(auto)]

#[cfg(test)]
mod bindings;
#[cfg(test)]
mod catalogues;
#[cfg(test)]
mod foldings;
#[cfg(test)]
mod shelves;
#[cfg(test)]
mod tokens;
#[cfg(test)]
mod workloads;
#[cfg(test)]
mod written;
