//! The program: from the words of a command line to an answer, its text and an exit status.
//!
//! `run` reads the words, the files that they name and the setting in them, does what the command asks for, and writes the
//! text of the answer. What is read, put and written goes through a shelf and a sink of `adv_shelf`. Costs are in
//! thousandths of a sequential page read, and a space budget is in pages. What a least plan costs is found by `planner`,
//! over the offers of `access_paths`, or told by the programme of `tuning`; advice is found by `branch_bound` over that, the
//! points of a sweep by `budget_sweep`, and a workload is changed step by step by `retune`.
//!
//! An `Outcome` is the exit status with `report`'s `Done`, the answer. `read_words` tells the `Command` of the words alone,
//! and `read_conf` the configuration of a file's bytes, or the first fault of either.
//!
//! ```rust
//! // In the shelf `CAT` is a catalogue of a table t of 20 pages and 1000 rows, and `LOAD` is `SELECT * FROM t`.
//! let outcome = run(alloc, words.as_slice(), &mut shelf, &mut out); // the words are cost, CAT, LOAD
//! assert_eq!(rt; outcome.status, 0);
//! let costs = b"statement 1 weight 1 cost 30000\ntotal 30000\n"; // 20 pages and 1000 rows: 20 * 1000 + 1000 * 10
//! assert_eq!(rt; out.bytes(), costs.as_slice());
//! ```
#![tactic(auto)]

mod answer;
mod commands;
mod conf;
mod files;
mod laws;
mod made;
mod opened;
mod planned;
mod programmes;
mod reply;
mod setting;
mod statements;
mod stop;
mod tally;
mod top;
mod worked;

pub use command_line::{Command, DEFAULT_NODES, read_words};
pub use commands::check::checks_have_one_answer;
pub use conf::read_conf;
pub use laws::{
    checks_stand_alone, refusals_stand_alone, ruled_certificates_are_accepted,
    swept_certificates_are_accepted,
};
pub use top::{Outcome, run};
