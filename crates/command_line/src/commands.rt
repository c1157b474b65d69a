//! What may be asked for, and how the words of a command line ask for it.
ghost use Rattle.std.specs.Prelude.{◌≡◌, ◌<◌, ◌≤◌, ◌↔◌, Ok, IfOk};
ghost use Rattle.adv_base.specs.declared.limits.TheConstants.{MOST_PAGES};
ghost use Rattle.command_line.specs.Spellings.{IsCommandLine, IsInRange};
ghost use Rattle.command_line.specs.CommandLine as spec;
ghost use Rattle.command_line.specs.inner.Arguments.{by_row};

use crate::WordFault;
use crate::arguments::Arguments;
use adv_base::limits::MOST_PAGES;

/// How many nodes a search may have where no word says it.
pub const DEFAULT_NODES: u32 = 20000;

/// What the words of a command line ask for. Files go by their names, budgets are in pages, and `nodes` is the most nodes
/// that the tree of a search may have.
#[derive(Clone, Copy, Debug)]
pub enum Command<'a> {
    /// Prices each statement over the indexes that exist.
    Cost {
        cat: &'a str,
        load: &'a str,
    },
    /// Prices each statement under a configuration.
    WhatIf {
        cat: &'a str,
        load: &'a str,
        conf: &'a str,
    },
    /// Shows a least plan of one statement under a configuration.
    Explain {
        cat: &'a str,
        load: &'a str,
        conf: &'a str,
        number: u32,
    },
    /// Lists the candidate indexes.
    Candidates {
        cat: &'a str,
        load: &'a str,
    },
    /// Searches for a best configuration within a budget of pages and of nodes, perhaps with a certificate.
    Advise {
        cat: &'a str,
        load: &'a str,
        budget: u64,
        nodes: u32,
        cert: Option<&'a str>,
    },
    /// Searches for one among those that keep an administrator's rules.
    Ruled {
        cat: &'a str,
        load: &'a str,
        budget: u64,
        rules: &'a str,
        nodes: u32,
        cert: Option<&'a str>,
    },
    /// Searches for a best configuration within each of `count` budgets, from `first` in steps of `step`, perhaps with a
    /// certificate each, in files whose names begin with `cert`.
    Sweep {
        cat: &'a str,
        load: &'a str,
        first: u64,
        step: u64,
        count: u32,
        nodes: u32,
        cert: Option<&'a str>,
    },
    /// Searches for a best configuration each time that a script of edits asks for one, over the workload as it is then.
    Retune {
        cat: &'a str,
        load: &'a str,
        edits: &'a str,
        budget: u64,
        nodes: u32,
    },
    /// Checks a certificate.
    Check {
        cat: &'a str,
        load: &'a str,
        cert: &'a str,
    },
    /// Checks a certificate of advice under rules.
    CheckRuled {
        cat: &'a str,
        load: &'a str,
        rules: &'a str,
        cert: &'a str,
    },
    /// Folds a workload: alike statements become one, in another file.
    Fold {
        cat: &'a str,
        load: &'a str,
        out: &'a str,
    },
    /// Makes an input and advises on it.
    Bench {
        seed: u64,
        tables: u32,
        statements: u32,
        budget: u64,
    },
}

/// The most budgets of a sweep.
const MOST_POINTS: u64 = 16;

/// The last of so many budgets, from the first one in steps.
fn last_budget(first: u64, step: u64, count: u32) -> u64
    requires first { first ≤ MOST_PAGES }
    requires step { step ≤ MOST_PAGES }
    requires few { count ≤ MOST_POINTS }
    ensures { result ≡ spec.last_budget first step count }
{
    first + step * count.saturating_sub(1) as u64
}

/// A method for each command, which reads the words behind its name.
impl<'a> Arguments<'a> {
    /// `cost CAT LOAD`.
    fn cost(mut self) -> Result<Command<'a>, WordFault>
        requires { self.at < 70 }
        ensures { spec.GivesBy spec.plain_command result (by_row spec.cost_row self.entry) }
    {
        let command = Command::Cost {
            cat: self.file(),
            load: self.file(),
        };
        self.end(command)
    }

    /// `whatif CAT LOAD CONF`.
    fn what_if(mut self) -> Result<Command<'a>, WordFault>
        requires { self.at < 70 }
        ensures { spec.GivesBy spec.plain_command result (by_row spec.what_if_row self.entry) }
    {
        let command = Command::WhatIf {
            cat: self.file(),
            load: self.file(),
            conf: self.file(),
        };
        self.end(command)
    }

    /// `explain CAT LOAD CONF N`.
    fn explain(mut self) -> Result<Command<'a>, WordFault>
        requires { self.at < 70 }
        ensures { spec.GivesBy spec.plain_command result (by_row spec.explain_row self.entry) }
    {
        let command = Command::Explain {
            cat: self.file(),
            load: self.file(),
            conf: self.file(),
            number: self.number(1, 1000) as u32,
        };
        self.end(command)
    }

    /// `candidates CAT LOAD`.
    fn candidates(mut self) -> Result<Command<'a>, WordFault>
        requires { self.at < 70 }
        ensures { spec.GivesBy spec.plain_command result (by_row spec.candidates_row self.entry) }
    {
        let command = Command::Candidates {
            cat: self.file(),
            load: self.file(),
        };
        self.end(command)
    }

    /// `advise CAT LOAD BUDGET [--nodes N] [--cert FILE]`.
    fn advise(mut self) -> Result<Command<'a>, WordFault>
        requires { self.at < 70 }
        ensures { spec.GivesBy spec.plain_command result (by_row spec.advise_row self.entry) }
    {
        let cat = self.file();
        let load = self.file();
        let budget = self.number(0, MOST_PAGES);
        let given = self.options(true)?;
        Ok(Command::Advise {
            cat,
            load,
            budget,
            nodes: given.nodes.unwrap_or(DEFAULT_NODES),
            cert: given.cert,
        })
    }

    /// `ruled CAT LOAD BUDGET RULES [--nodes N] [--cert FILE]`.
    fn ruled(mut self) -> Result<Command<'a>, WordFault>
        requires { self.at < 70 }
        ensures { spec.GivesBy spec.plain_command result (by_row spec.ruled_row self.entry) }
    {
        let cat = self.file();
        let load = self.file();
        let budget = self.number(0, MOST_PAGES);
        let rules = self.file();
        let given = self.options(true)?;
        Ok(Command::Ruled {
            cat,
            load,
            budget,
            rules,
            nodes: given.nodes.unwrap_or(DEFAULT_NODES),
            cert: given.cert,
        })
    }

    /// `sweep CAT LOAD FIRST STEP COUNT [--nodes N] [--cert PREFIX]`.
    fn sweep(mut self) -> Result<Command<'a>, WordFault>
        requires { self.at < 70 }
        ensures { spec.GivesBy spec.plain_command result (by_row spec.sweep_row self.entry) }
    {
        let cat = self.file();
        let load = self.file();
        let first = self.number(0, MOST_PAGES);
        let step = self.number(1, MOST_PAGES);
        let count = self.number(1, MOST_POINTS) as u32;
        self.together(last_budget(first, step, count) <= MOST_PAGES);
        let given = self.options(true)?;
        Ok(Command::Sweep {
            cat,
            load,
            first,
            step,
            count,
            nodes: given.nodes.unwrap_or(DEFAULT_NODES),
            cert: given.cert,
        })
    }

    /// `retune CAT LOAD EDITS BUDGET [--nodes N]`.
    fn retune(mut self) -> Result<Command<'a>, WordFault>
        requires { self.at < 70 }
        ensures { spec.GivesBy spec.plain_command result (by_row spec.retune_row self.entry) }
    {
        let cat = self.file();
        let load = self.file();
        let edits = self.file();
        let budget = self.number(0, MOST_PAGES);
        let given = self.options(false)?;
        Ok(Command::Retune {
            cat,
            load,
            edits,
            budget,
            nodes: given.nodes.unwrap_or(DEFAULT_NODES),
        })
    }

    /// `check CAT LOAD CERT`.
    fn check(mut self) -> Result<Command<'a>, WordFault>
        requires { self.at < 70 }
        ensures { spec.GivesBy spec.plain_command result (by_row spec.check_row self.entry) }
    {
        let command = Command::Check {
            cat: self.file(),
            load: self.file(),
            cert: self.file(),
        };
        self.end(command)
    }

    /// `check-ruled CAT LOAD RULES CERT`.
    fn check_ruled(mut self) -> Result<Command<'a>, WordFault>
        requires { self.at < 70 }
        ensures { spec.GivesBy spec.plain_command result (by_row spec.check_ruled_row self.entry) }
    {
        let command = Command::CheckRuled {
            cat: self.file(),
            load: self.file(),
            rules: self.file(),
            cert: self.file(),
        };
        self.end(command)
    }

    /// `fold CAT LOAD OUT`.
    fn fold(mut self) -> Result<Command<'a>, WordFault>
        requires { self.at < 70 }
        ensures { spec.GivesBy spec.plain_command result (by_row spec.fold_row self.entry) }
    {
        let command = Command::Fold {
            cat: self.file(),
            load: self.file(),
            out: self.file(),
        };
        self.end(command)
    }

    /// `bench SEED TABLES STATEMENTS BUDGET`.
    fn bench(mut self) -> Result<Command<'a>, WordFault>
        requires { self.at < 70 }
        ensures { spec.GivesBy spec.plain_command result (by_row spec.bench_row self.entry) }
    {
        let command = Command::Bench {
            seed: self.number(0, u64::MAX),
            tables: self.number(2, 20) as u32,
            statements: self.number(1, 500) as u32,
            budget: self.number(0, MOST_PAGES),
        };
        self.end(command)
    }
}

/// The command of a name, with the rest of the words.
fn named<'a>(name: &str, words: &'a [String]) -> Result<Command<'a>, WordFault>
    ensures { spec.GivesBy spec.plain_command result (spec.named_command name.now (spec.texts words.now)) }
{
    let line = Arguments {
        words,
        at: 1,
        so_far: Ok(()),
    };
    match name {
        "cost" => line.cost(),
        "whatif" => line.what_if(),
        "explain" => line.explain(),
        "candidates" => line.candidates(),
        "advise" => line.advise(),
        "ruled" => line.ruled(),
        "sweep" => line.sweep(),
        "retune" => line.retune(),
        "check" => line.check(),
        "check-ruled" => line.check_ruled(),
        "fold" => line.fold(),
        "bench" => line.bench(),
        _ => Err(WordFault::UnknownCommand(1)),
    }
}

/// The command that the words are, or the first fault from the left.
#[tactic(auto, unfolding(crate::specs::CommandLine::command_of))]
fn command_of<'a>(words: &'a [String]) -> Result<Command<'a>, WordFault>
    ensures { spec.GivesBy spec.plain_command result (spec.command_of (spec.texts words.now)) }
{
    match words.first() {
        Some(name) => named(name.as_str(), words),
        None => Err(WordFault::NoCommand),
    }
}

/// The command that the words are, or the first fault from the left. Takes no memory.
pub fn read_words<'a>(words: &'a [String]) -> Result<Command<'a>, WordFault>
    ensures reads { spec.GivesBy spec.plain_command result (spec.command_of (spec.texts words.now)) }
    ensures grammar { (command : spec.PlainCommand) → (spec.command_of (spec.texts words.now) ≡ Ok command) ↔ IsCommandLine (spec.texts words.now) command }
    ensures range { IfOk result (λ command. IsInRange (spec.plain_command command)) }
{
    command_of(words)
}
