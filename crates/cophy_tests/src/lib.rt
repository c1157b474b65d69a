//! Tests of the program's public calls, from words and files in memory to a status, bytes and files. What they pin is what no
//! clause says: that answers are found where there is memory, and that the definitions say what was meant.
//!
//! Cases are data: tables, a case a line, and scripts of runs in which the parts of a line are filled in. `scene` plays them.
#![tactic(auto)]

#[cfg(test)]
mod asserts;
#[cfg(test)]
mod catalogues;
#[cfg(test)]
mod certificates;
#[cfg(test)]
mod changing;
#[cfg(test)]
mod clustered;
#[cfg(test)]
mod faults;
#[cfg(test)]
mod files;
#[cfg(test)]
mod folded;
#[cfg(test)]
mod histograms;
#[cfg(test)]
mod large;
#[cfg(test)]
mod made;
#[cfg(test)]
mod obeying;
#[cfg(test)]
mod retuned;
#[cfg(test)]
mod runs;
#[cfg(test)]
mod scene;
#[cfg(test)]
mod swept;
#[cfg(test)]
mod words;
