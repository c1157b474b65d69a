//! Answers, and the text of each.
ghost use Rattle.std.specs.Prelude.{◌≡◌, ◌++◌, OnOk, IfOk, map, string_bytes, option_map};
ghost use Rattle.adv_base.specs.Settings.{the_setting};
ghost use Rattle.report.specs.Texts.{done_text, FitsSetting};

use crate::advised::{push_advised, push_benched, push_ruled};
use crate::checked::{push_checked, push_unproved};
use crate::printed::{
    push_explained, push_folded, push_listed, push_prices, push_read_fault, push_refused,
    push_usage, statements_of,
};
use crate::retuned::push_retuned;
use crate::swept::push_swept;
use adv_base::{Bytes, IndexShape, List, NoMemory, Setting};
use binder::BindFault;
use bip_model::{Answer, Point};
use candidates::Candidates;
use catalogue::CatFault;
use command_line::WordFault;
use dba_rules::RuleFault;
use gap_checker::{CheckFault, Checked};
use plan_model::Whole;
use sql_reader::SqlFault;
use std::alloc::{AllocError, Global};

/// Which file is meant, in the order of the words.
#[derive(Clone, Copy, Debug, PartialEq, Eq)]
pub enum Role {
    Catalogue,
    Workload,
    Third,
    Fourth,
}

/// Why an edit of a workload can't be made.
#[derive(Clone, Copy, Debug, PartialEq, Eq)]
pub enum EditFault {
    /// The line is none of a script.
    BadLine,
    /// The statement that is added is at fault.
    Sql(SqlFault),
    /// A name in it is at fault.
    Bind(BindFault),
    /// There is no statement of that number.
    NoStatement(u32),
    /// The workload would have more statements than it may.
    TooManyStatements,
    /// Its statements would have more slots than they may.
    TooManySlots,
    /// The statement of that number has this many combinations of interesting orders, too many for a cache of its plans.
    TooManyCombinations(u32, u64),
}

/// Why the input of a command is refused.
#[derive(Clone, Copy, Debug, PartialEq, Eq)]
pub enum Refusal {
    /// The file has more bytes than its limit.
    TooLong(Role),
    /// The catalogue is at fault.
    Cat(CatFault),
    /// The workload is at fault.
    Sql(SqlFault),
    /// A name in the workload is at fault.
    Bind(BindFault),
    /// There is no statement of the first number; the second is how many there are.
    NoStatement(u32, u32),
    /// The configuration is at fault in that line.
    BadConf(u64),
    /// The rules are at fault, or what has to be doesn't fit.
    Rules(RuleFault),
    /// The statement of that number has this many combinations of interesting orders, too many for a cache of its plans.
    TooManyCombinations(u32, u64),
    /// The folded workload would have this many bytes, more than a file may.
    FoldTooLong(u64),
    /// The edit in that line, from 1, is at fault.
    Edit(u32, EditFault),
}

/// Why a certificate proves nothing.
#[derive(Clone, Copy, Debug, PartialEq, Eq)]
pub enum NotProved {
    /// Up to that line no certificate begins with the file's lines.
    Malformed(u64),
    /// Its configuration goes against the rules at this candidate first: it lacks what has to be, or has what never may.
    Disobeys(u16),
    /// The certificate has this fault first.
    Fault(CheckFault),
}

/// The cost of each statement, without its weight, and the total with the weights. `size` is the pages of the
/// configuration, where there is one.
#[derive(Debug, Drop)]
pub struct Prices {
    pub size: Option<u128>,
    pub costs: List<u128>,
    pub total: u128,
}

/// A least plan of the statement of that number, with its cost and its lines, and the upkeep of the statement. An INSERT
/// has no plan.
#[derive(Drop)]
pub struct Explained {
    pub number: u32,
    pub plan: Option<Whole>,
    pub cost: u128,
    pub upkeep: u128,
    pub text: Bytes,
}

/// Which candidates to make under a budget of pages: what a search of at most so many nodes found, and how many proposed
/// indexes were left over.
#[derive(Drop)]
pub struct Advice {
    pub budget: u64,
    pub nodes: u32,
    pub left_over: u64,
    pub answer: Answer,
}

/// Advice under rules: how many candidates they make in, and how many out.
#[derive(Drop)]
pub struct Ruled {
    pub must: u32,
    pub never: u32,
    pub advice: Advice,
}

/// Advice over the candidates as they are where a script of edits asks for it.
#[derive(Drop)]
pub struct Tuned {
    pub shapes: List<IndexShape>,
    pub advice: Advice,
}

/// Advice on a made workload, with how large that is: its tables, its statements, and the slots of all of them (tables that
/// their blocks read, each as often as it stands there).
#[derive(Drop)]
pub struct Bench {
    pub tables: u32,
    pub statements: u32,
    pub slots: u32,
    pub advice: Advice,
}

/// A workload of so many statements that was folded into so many groups, and what it costs over the indexes that exist.
#[derive(Clone, Copy, Debug, PartialEq, Eq)]
pub struct FoldDone {
    pub statements: u32,
    pub groups: u32,
    pub total: u128,
}

/// The answer to the words of a command line.
#[derive(Drop)]
pub enum Done {
    Usage(WordFault),
    ReadFault(Role),
    WriteFault,
    Refused(Refusal),
    Memory,
    Priced(Prices),
    Listed(Candidates),
    Explained(Explained),
    Advised(Advice),
    Ruled(Ruled),
    Swept(List<Point>),
    Retuned(List<Tuned>),
    Checked(Checked),
    NotProved(NotProved),
    Folded(FoldDone),
    Benched(Bench),
}

/// Adds the text of an answer.
fn push_done(
    alloc: Global,
    out: &mut Vec<u8>,
    done: &Done,
    words: &[String],
    setting: Option<&Setting<'_>>,
) -> Result<(), AllocError>
    requires { FitsSetting (option_map (λ s. the_setting s.now) setting) done.now }
    ensures { OnOk result (out.new.items ≡ out.old.items
        ++ done_text (map string_bytes words.now) (option_map (λ s. the_setting s.now) setting.entry) done.now) }
{
    match done {
        Done::Usage(fault) => push_usage(alloc, out, *fault),
        Done::ReadFault(role) => push_read_fault(out, words, *role),
        Done::Refused(why) => push_refused(alloc, out, words, *why),
        Done::Priced(prices) => push_prices(alloc, out, statements_of(setting), prices),
        Done::Listed(found) => push_listed(alloc, out, setting, found),
        Done::Explained(explained) => push_explained(alloc, out, explained),
        Done::Advised(advice) => push_advised(alloc, out, setting, advice),
        Done::Ruled(ruled) => push_ruled(alloc, out, setting, ruled),
        Done::Swept(points) => push_swept(alloc, out, setting, points.as_slice()),
        Done::Retuned(tuned) => push_retuned(alloc, out, setting, tuned.as_slice()),
        Done::Checked(checked) => push_checked(alloc, out, checked),
        Done::NotProved(why) => push_unproved(alloc, out, *why),
        Done::Folded(folded) => push_folded(alloc, out, folded),
        Done::Benched(bench) => push_benched(alloc, out, setting, bench),
        Done::WriteFault => Ok(()),
        Done::Memory => Ok(()),
    }
}

/// The text of an answer to the words. Prices want the setting whose statements they price, one price each; candidates that
/// whose catalogue has their tables and columns, also where a script asks for advice over them; other advice and the points of
/// a sweep that whose candidates they pick. Of a sweep nothing is told without it. `NoMemory` is want of memory.
pub fn text(
    alloc: Global,
    done: &Done,
    words: &[String],
    setting: Option<&Setting<'_>>,
) -> Result<Bytes, NoMemory>
    requires { FitsSetting (option_map (λ s. the_setting s.now) setting) done.now }
    ensures { IfOk result (λ bytes. bytes ≡ done_text (map string_bytes words.now) (option_map (λ s. the_setting s.now) setting.entry) done.now) }
{
    let mut out = Vec::new(alloc);
    match push_done(alloc, &mut out, done, words, setting) {
        Ok(()) => Ok(Bytes { items: out }),
        Err(_) => Err(NoMemory),
    }
}
