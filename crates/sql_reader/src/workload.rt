//! Reads a workload.
ghost use Rattle.sql_reader.specs.inner.Ahead.{terminals_in};
ghost use Rattle.sql_reader.specs.inner.Remaining.{remaining};
ghost use Rattle.sql_reader.specs.inner.Surveyed.{IsSurvey, surveyed_fault};
ghost use Rattle.sql_reader.specs.Values.{no_statements};
ghost use Rattle.sql_reader.specs.Valid.{statements_in};
ghost use Rattle.sql_reader.specs.Workload as workload;
ghost use Rattle.sql_reader.specs.declared.cursor.Unread.TheVariants.{Here, Memory};
ghost use Rattle.sql_reader.specs.declared.parsed.ParsedStatement.{ParsedStatement};
ghost use Rattle.sql_reader.specs.declared.parsed.SqlFault.{SqlFault};
ghost use Rattle.std.specs.Prelude.{◌≡◌, ◌+◌, ◌<◌, ◌^◌, ◌⊎◌, ℕ, IfErr, IsErrOf, IfOk, List, IsTrue, MatchResult, length};

use crate::cursor::{Cursor, GrammarReader, Unread, has};
use crate::survey::Survey;
use crate::{Parsed, ParsedStatement, Progress, SqlFault, TerminalKind};
use adv_base::List;
use sql_tokens::{TokenFault, TokenReader};
use std::alloc::Global;

/// The kinds of words that begin a form that is left out.
const LEFT_OUT: [TerminalKind; 3] = [
    TerminalKind::LeftOut,
    TerminalKind::Not,
    TerminalKind::Select,
];

/// How many levels nest.
const LEVELS: u8 = 200;

impl Progress {
    /// A workload of which nothing is read.
    fn new(alloc: Global) -> Progress
        ensures { result ≡ no_statements }
    {
        Progress {
            statements: List::new(alloc),
            before: 0,
        }
    }
}

impl SqlFault {
    /// The place of the fault, 0 where it is want of memory.
    pub fn place(self) -> u64
        ensures { result ≡ workload.place_of_fault self }
    {
        match self {
            SqlFault::Memory => 0,
            SqlFault::BadByte(place) => place,
            SqlFault::OpenText(place) => place,
            SqlFault::Syntax(place) => place,
            SqlFault::Unsupported(place) => place,
            SqlFault::BadWeight(place) => place,
            SqlFault::TooManyStatements(place) => place,
        }
    }
}

/// The fault where the grammar fails before the terminals that are left, with the place of the end of the text.
#[tactic(auto, unfolding(crate::specs::inner::Remaining::remaining))]
fn grammar_fault(end: u64, cursor: &Cursor<'_>) -> SqlFault
    ensures { result ≡ workload.grammar_fault end (remaining cursor.now) }
{
    match cursor.next {
        None => SqlFault::Syntax(end),
        Some(terminal) => {
            let place = terminal.span.place();
            if has(&LEFT_OUT, terminal.kind) {
                SqlFault::Unsupported(place)
            } else {
                SqlFault::Syntax(place)
            }
        }
    }
}

/// The first of two faults in the text; the first of the two where they stand at one place.
fn earlier(first: Option<SqlFault>, second: Option<SqlFault>) -> Option<SqlFault>
    ensures { result ≡ workload.earlier first second }
{
    match first {
        None => second,
        Some(fault) => match second {
            None => Some(fault),
            Some(other) => {
                if other.place() < fault.place() {
                    Some(other)
                } else {
                    Some(fault)
                }
            }
        },
    }
}

/// What the grammar says of a text: its statements, or its fault.
fn read_terminals(
    alloc: Global,
    end: u64,
    text: &[u8],
) -> Result<(Progress, Option<SqlFault>), Unread>
    requires short { length text.now < 2 ^ 32 }
    requires few { length (terminals_in text.now) < 2 ^ 32 }
    ensures ok { IfOk result (λ r. workload.GrammarSays end (terminals_in text.now) r.0 r.1) }
    ensures err { IfErr result (λ stop. stop ≡ Memory) }
{
    let mut cursor = Cursor::at_front(text);
    let mut progress = Progress::new(alloc);
    let reader = GrammarReader { levels: LEVELS };
    let outcome = reader.workload(alloc, &mut cursor, &mut progress);
    match outcome {
        Ok(()) => {
            let fault = fault_behind(end, &cursor);
            Ok((progress, fault))
        }
        Err(stop) => {
            let fault = stop_fault(end, &cursor, stop)?;
            Ok((progress, Some(fault)))
        }
    }
}

/// The fault where reading stops before the terminals that are left, unless it was for want of memory.
fn stop_fault(end: u64, cursor: &Cursor<'_>, stop: Unread) -> Result<SqlFault, Unread>
    ensures ok { IfOk result (λ fault. (stop ≡ Here) × (fault ≡ workload.grammar_fault end (remaining cursor.now))) }
    ensures err { IfErr result (λ stop. stop ≡ Memory) }
{
    match stop {
        Unread::Here => Ok(grammar_fault(end, cursor)),
        Unread::Memory => Err(Unread::Memory),
    }
}

/// The fault of terminals that are left behind a workload.
#[tactic(auto, unfolding(crate::specs::inner::Remaining::remaining))]
fn fault_behind(end: u64, cursor: &Cursor<'_>) -> Option<SqlFault>
    ensures { result ≡ workload.fault_behind end (remaining cursor.now) }
{
    if cursor.next.is_none() {
        return None;
    }
    Some(grammar_fault(end, cursor))
}

/// The first fault of a text with this survey, where the grammar has this one.
fn first_fault(survey: Survey, fault: Option<SqlFault>) -> Option<SqlFault>
    ensures { result ≡ surveyed_fault survey fault }
{
    let weight = match survey.bad_weight {
        Some(place) => Some(SqlFault::BadWeight(place)),
        None => None,
    };
    let start = match survey.start {
        Some(place) => Some(SqlFault::TooManyStatements(place)),
        None => None,
    };
    earlier(fault, earlier(weight, start))
}

/// A text and its statements, which keep what a Parsed keeps.
fn parsed<'a>(text: &'a [u8], statements: List<ParsedStatement>) -> Parsed<'a>
    requires short { length text.now < 2 ^ 32 }
    requires within { IsTrue (statements_in (length text.now) statements) }
    ensures text { result.text.now ≡ text.now }
    ensures statements { result.statements ≡ statements }
{
    Parsed { text, statements }
}

/// What a text with this survey says, where the grammar says this of it.
fn conclude<'a>(
    text: &'a [u8],
    survey: Survey,
    progress: Progress,
    fault: Option<SqlFault>,
) -> Result<Parsed<'a>, SqlFault>
    requires short { length text.now < 2 ^ 32 }
    requires survey { IsSurvey text.now survey }
    requires says { workload.GrammarSays (length text.now + 1) (terminals_in text.now) progress fault }
    ensures same_text { IfOk result (λ parsed. parsed.text.now ≡ text.now) }
    ensures found { IfOk result (λ parsed. workload.Says text.now parsed.statements None) }
    ensures fault { IfErr result (λ e. (e ≡ SqlFault.Memory) ⊎ workload.IsFirstFault text.now e) }
{
    match first_fault(survey, fault) {
        Some(fault) => Err(fault),
        None => {
            let Progress {
                statements,
                before: _,
            } = progress;
            Ok(parsed(text, statements))
        }
    }
}

/// What a text with tokens says.
fn read_surveyed<'a>(alloc: Global, text: &'a [u8], survey: Survey) -> Result<Parsed<'a>, SqlFault>
    requires short { length text.now < 2 ^ 32 }
    requires survey { IsSurvey text.now survey }
    ensures same_text { IfOk result (λ parsed. parsed.text.now ≡ text.now) }
    ensures found { IfOk result (λ parsed. workload.Says text.now parsed.statements None) }
    ensures fault { IfErr result (λ e. (e ≡ SqlFault.Memory) ⊎ workload.IsFirstFault text.now e) }
{
    let end = text.len() as u64 + 1;
    match read_terminals(alloc, end, text) {
        Ok((progress, fault)) => conclude(text, survey, progress, fault),
        Err(_) => Err(SqlFault::Memory),
    }
}

/// The statements of a workload, by the grammar of docs/FORMATS.md (a subset of SQL). A place is the 1-based
/// offset of a token's first byte; the end of a text of n bytes has place n + 1. The faults of tokens,
/// BadByte and OpenText, come before all others. Of the others the first in the text comes: Syntax or
/// Unsupported at the first token at which no workload goes on, and Unsupported exactly where that is a word
/// of a form that is left out; BadWeight at a weight comment whose number isn't 1 to 10^6; TooManyStatements
/// at the first token of the 1001st statement. Memory may come at any time; but for it, a text that is a
/// workload gives its statements, and one that has a fault gives that fault.
pub fn read_workload<'a>(alloc: Global, text: &'a [u8]) -> Result<Parsed<'a>, SqlFault>
    requires { length text.now < 2 ^ 32 }
    ensures same_text { IfOk result (λ parsed. parsed.text.now ≡ text.now) }
    ensures found { IfOk result (λ parsed. workload.IsWorkload text.now parsed.statements) }
    ensures only { (statements : List ParsedStatement) → workload.IsWorkload text.now statements →
        MatchResult result (λ parsed. parsed.statements ≡ statements) (λ e. e ≡ SqlFault.Memory) }
    ensures fault { IfErr result (λ e. (e ≡ SqlFault.Memory) ⊎ workload.HasSqlFault text.now e) }
    ensures fault_only { (e : SqlFault) → workload.HasSqlFault text.now e →
        MatchResult result (λ _. ⊥) (λ f. (f ≡ e) ⊎ (f ≡ SqlFault.Memory)) }
    // Where there are too many statements, a workload goes on through the first token of its 1001st.
    ensures too_many { (place : ℕ) → IsErrOf result (SqlFault.TooManyStatements place) → workload.BeginsOneTooMany text.now place }
{
    match Survey::of(text) {
        Ok(survey) => read_surveyed(alloc, text, survey),
        Err(TokenFault::Memory) => Err(SqlFault::Memory),
        Err(TokenFault::BadByte(place)) => Err(SqlFault::BadByte(place)),
        Err(TokenFault::OpenText(place)) => Err(SqlFault::OpenText(place)),
    }
}
