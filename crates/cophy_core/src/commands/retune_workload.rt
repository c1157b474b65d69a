//! `retune`: advice wherever a script asks for it that changes the workload step by step.
ghost use Rattle.std.specs.Prelude.{◌≡◌, ◌≤◌, ℕ, List, map, length, All, IfOk, IfErr, OnOk, Some};
ghost use Rattle.adv_base.specs.declared.catalogue.Catalogue as catalogues;
ghost use Rattle.adv_base.specs.declared.limits.TheConstants.{MOST_FILE_BYTES, MOST_NODES, MOST_PAGES, MOST_WEIGHT};
ghost use Rattle.adv_base.specs.declared.workload.Statement as statements;
ghost use Rattle.adv_base.specs.Named.{NamesWork};
ghost use Rattle.adv_base.specs.Settings.{the_setting};
ghost use Rattle.candidates.specs.Growing.{IsProposed};
ghost use Rattle.edit_script.specs.Scripts as scripts;
ghost use Rattle.edit_script.specs.declared.edit.TheConstants.{MOST_LINES};
ghost use Rattle.programme_parts.specs.Combinations.{AreFew};
ghost use Rattle.report.specs.Texts.{FitsSetting, FitsCatalogue};
ghost use Rattle.cophy_core.specs.Causes.{IsBounded};
ghost use Rattle.cophy_core.specs.Settings.{AreStatementsOf};
ghost use Rattle.cophy_core.specs.Stops.{StopsAt};
ghost use Rattle.cophy_core.specs.commands.Retune as spec;
ghost use Rattle.cophy_core.specs.inner.EditSteps as inner;

use crate::commands::advise::best_advice;
use crate::commands::list_candidates::copies;
use crate::commands::remembered::{Remembered, earlier_of, numbers_now};
use crate::commands::session::session_of;
use crate::stop::Stop;
use adv_base::{Catalogue, List, NoMemory, Setting, Statement};
use binder::{BindFault, bind};
use candidates::Proposed;
use edit_script::{Edit, Edits, ScriptFault, read_edits};
use report::{Done, EditFault, Refusal, Tuned};
use retune::{RetuneFault, Session};
use sql_reader::{Parsed, SqlFault, read_workload};
use std::alloc::Global;

/// The stop at a fault of the edit on a line.
fn refused(line: u32, fault: EditFault) -> Stop
    ensures { result ≡ Stop.Refused (Refusal.Edit line fault) }
{
    Stop::Refused(Refusal::Edit(line, fault))
}

/// The statement that an added text is.
fn one_statement<'a>(alloc: Global, line: u32, sql: &'a [u8]) -> Result<Parsed<'a>, Stop>
    requires { length sql.now ≤ MOST_FILE_BYTES }
    ensures one { IfOk result (inner.IsOne sql.now) }
    ensures stop { IfErr result (λ stop. (cat : catalogues.Catalogue) (before : List statements.Statement) (weight : ℕ) →
        StopsAt (inner.OnLine line (spec.IsAdditionFault cat before weight sql.now)) stop) }
{
    match read_workload(alloc, sql) {
        Ok(parsed) => {
            if parsed.statements.len() == 1 {
                Ok(parsed)
            } else {
                Err(refused(line, EditFault::BadLine))
            }
        }
        Err(SqlFault::Memory) => Err(Stop::Memory),
        Err(fault) => Err(refused(line, EditFault::Sql(fault))),
    }
}

/// The one statement of a list, with another weight.
fn reweighed(bound: List<Statement>, weight: u32) -> Statement
    requires one { length bound ≡ 1 }
    requires least { 1 ≤ weight }
    requires most { weight ≤ MOST_WEIGHT }
    ensures { inner.IsReweighed bound weight result }
{
    let mut items = bound.items;
    match items.pop() {
        Some(statement) => Statement {
            weight,
            work: statement.work,
        },
        None => unreachable!(),
    }
}

/// What it means, with a weight.
fn addition(
    alloc: Global,
    cat: &Catalogue,
    line: u32,
    weight: u32,
    sql: &[u8],
) -> Result<Statement, Stop>
    requires short { length sql.now ≤ MOST_FILE_BYTES }
    requires least { 1 ≤ weight }
    requires most { weight ≤ MOST_WEIGHT }
    ensures addition { IfOk result (spec.IsAddition cat.now weight sql.now) }
    ensures named { IfOk result (λ statement. NamesWork cat.now statement.work) }
    ensures stop { IfErr result (λ stop. (before : List statements.Statement) →
        StopsAt (inner.OnLine line (spec.IsAdditionFault cat.now before weight sql.now)) stop) }
{
    let parsed = one_statement(alloc, line, sql)?;
    match bind(alloc, cat, &parsed) {
        Ok(bound) => Ok(reweighed(bound, weight)),
        Err(BindFault::Memory) => Err(Stop::Memory),
        Err(fault) => Err(refused(line, EditFault::Bind(fault))),
    }
}

/// The stop where a session doesn't take the edit on a line.
fn step_stop(line: u32, fault: RetuneFault) -> Stop
    ensures { inner.IsStepStop line fault result }
{
    match fault {
        RetuneFault::Memory => Stop::Memory,
        RetuneFault::NoStatement(number) => refused(line, EditFault::NoStatement(number)),
        RetuneFault::TooManyStatements => refused(line, EditFault::TooManyStatements),
        RetuneFault::TooManySlots => refused(line, EditFault::TooManySlots),
        RetuneFault::TooManyCombinations(number, count) => {
            refused(line, EditFault::TooManyCombinations(number, count))
        }
    }
}

/// Adds the statement that a text is, with a weight.
fn add(
    alloc: Global,
    cat: &Catalogue,
    session: &mut Session<'_>,
    line: u32,
    weight: u32,
    sql: &[u8],
) -> Result<(), Stop>
    requires short { length sql.now ≤ MOST_FILE_BYTES }
    requires least { 1 ≤ weight }
    requires most { weight ≤ MOST_WEIGHT }
    requires cat { session.old.cat ≡ cat.now }
    requires few { AreFew cat.now session.old.statements }
    ensures taken { OnOk result (spec.IsAdded cat.now session.old.statements weight sql.now session.new.statements) }
    ensures few { OnOk result (AreFew cat.now session.new.statements) }
    ensures cat { OnOk result (session.new.cat ≡ cat.now) }
    ensures stop { IfErr result (StopsAt (inner.OnLine line (spec.IsAdditionFault cat.now session.old.statements weight sql.now))) }
{
    let statement = addition(alloc, cat, line, weight, sql)?;
    match session.add(statement) {
        Ok(()) => Ok(()),
        Err(fault) => Err(step_stop(line, fault)),
    }
}

/// Removes the statement of a number.
fn remove(session: &mut Session<'_>, line: u32, number: u32) -> Result<(), Stop>
    requires { AreFew session.old.cat session.old.statements }
    ensures taken { OnOk result (spec.IsTaken session.old.cat session.old.statements (scripts.Remove number) session.new.statements) }
    ensures few { OnOk result (AreFew session.old.cat session.new.statements) }
    ensures cat { OnOk result (session.new.cat ≡ session.old.cat) }
    ensures stop { IfErr result (StopsAt (inner.OnLine line (spec.IsMissing session.old.statements number))) }
{
    match session.remove(number) {
        Ok(()) => Ok(()),
        Err(fault) => Err(step_stop(line, fault)),
    }
}

/// Gives the statement of a number a weight.
fn reweigh(session: &mut Session<'_>, line: u32, number: u32, weight: u32) -> Result<(), Stop>
    requires least { 1 ≤ weight }
    requires most { weight ≤ MOST_WEIGHT }
    requires few { AreFew session.old.cat session.old.statements }
    ensures taken { OnOk result (spec.IsTaken session.old.cat session.old.statements (scripts.Weigh number weight) session.new.statements) }
    ensures few { OnOk result (AreFew session.old.cat session.new.statements) }
    ensures cat { OnOk result (session.new.cat ≡ session.old.cat) }
    ensures stop { IfErr result (StopsAt (inner.OnLine line (spec.IsMissing session.old.statements number))) }
{
    match session.reweigh(number, weight) {
        Ok(()) => Ok(()),
        Err(fault) => Err(step_stop(line, fault)),
    }
}

/// Has a session take the edit on a line.
fn take(
    alloc: Global,
    cat: &Catalogue,
    session: &mut Session<'_>,
    line: u32,
    edit: Edit<'_>,
) -> Result<(), Stop>
    requires short { inner.IsShort (scripts.the_edit edit) }
    requires range { scripts.IsInRange (scripts.the_edit edit) }
    requires cat { session.old.cat ≡ cat.now }
    requires few { AreFew cat.now session.old.statements }
    ensures taken { OnOk result (spec.IsTaken cat.now session.old.statements (scripts.the_edit edit.entry) session.new.statements) }
    ensures few { OnOk result (AreFew cat.now session.new.statements) }
    ensures cat { OnOk result (session.new.cat ≡ cat.now) }
    ensures stop { IfErr result (StopsAt (inner.OnLine line (spec.IsEditFault cat.now session.old.statements (scripts.the_edit edit.entry)))) }
{
    match edit {
        Edit::Add(weight, sql) => add(alloc, cat, session, line, weight, sql),
        Edit::Remove(number) => remove(session, line, number),
        Edit::Weigh(number, weight) => reweigh(session, line, number, weight),
        Edit::Advise => Ok(()),
    }
}

/// Advice over the candidates of a session, with a copy of these. What was told last is looked at first.
fn advice_over(
    alloc: Global,
    cat: &Catalogue,
    session: &Session<'_>,
    budget: u64,
    nodes: u32,
    last: Option<&Tuned>,
    remembered: &Remembered,
) -> Result<Tuned, NoMemory>
    requires cat { session.now.cat ≡ cat.now }
    requires few { AreFew cat.now session.now.statements }
    requires budget { budget ≤ MOST_PAGES }
    requires some { 1 ≤ nodes }
    requires nodes { nodes ≤ MOST_NODES }
    ensures tuned { IfOk result (spec.IsTunedOver cat.now budget nodes session.now.statements) }
    ensures fits { IfOk result (FitsCatalogue cat.now) }
{
    let found = session.candidates();
    let setting = Setting {
        cat,
        statements: session.statements(),
        shapes: found.list.as_slice(),
    };
    let shapes = copies(alloc, setting.shapes)?;
    let programme = session.programme();
    let numbers = numbers_now(last, setting.shapes);
    let places = remembered.places(alloc, programme, &numbers)?;
    let earlier = earlier_of(last, &numbers, places.as_slice());
    let advice = best_advice(
        alloc,
        &setting,
        programme,
        found.left_over,
        budget,
        nodes,
        earlier.as_ref(),
    )?;
    Ok(Tuned { shapes, advice })
}

/// Puts the advice of a session at the end.
fn put_tuned(
    alloc: Global,
    cat: &Catalogue,
    session: &Session<'_>,
    budget: u64,
    nodes: u32,
    remembered: &mut Remembered,
    all: &mut Vec<Tuned>,
) -> Result<(), NoMemory>
    requires cat { session.now.cat ≡ cat.now }
    requires few { AreFew cat.now session.now.statements }
    requires budget { budget ≤ MOST_PAGES }
    requires some { 1 ≤ nodes }
    requires nodes { nodes ≤ MOST_NODES }
    ensures { OnOk result (inner.IsOneMore cat.now budget nodes session.now.statements all.old.items all.new.items) }
{
    let last = all.as_slice().last();
    let advice = advice_over(alloc, cat, session, budget, nodes, last, remembered)?;
    *remembered = Remembered::of(alloc, session.programme(), session.statements().len())?;
    all.push(advice)?;
    Ok(())
}

/// Whether an edit asks for advice.
fn asks(edit: Edit<'_>) -> bool
    ensures { result ≡ scripts.is_advise (scripts.the_edit edit.entry) }
{
    match edit {
        Edit::Advise => true,
        _ => false,
    }
}

/// Puts the advice of a session at the end where an edit asks for it.
fn put_asked(
    alloc: Global,
    cat: &Catalogue,
    session: &Session<'_>,
    edit: Edit<'_>,
    budget: u64,
    nodes: u32,
    remembered: &mut Remembered,
    all: &mut Vec<Tuned>,
) -> Result<(), NoMemory>
    requires cat { session.now.cat ≡ cat.now }
    requires few { AreFew cat.now session.now.statements }
    requires budget { budget ≤ MOST_PAGES }
    requires some { 1 ≤ nodes }
    requires nodes { nodes ≤ MOST_NODES }
    ensures { OnOk result (inner.IsTold cat.now budget nodes session.now.statements (scripts.is_advise (scripts.the_edit edit.entry)) all.old.items all.new.items) }
{
    if asks(edit) {
        return put_tuned(alloc, cat, session, budget, nodes, remembered, all);
    }
    Ok(())
}

/// Has a session take edits, and advises where they ask for it.
fn advices(
    alloc: Global,
    cat: &Catalogue,
    session: &mut Session<'_>,
    edits: &[Edit<'_>],
    budget: u64,
    nodes: u32,
) -> Result<List<Tuned>, Stop>
    requires each { All inner.IsShort (map scripts.the_edit edits.now) }
    requires ranges { All scripts.IsInRange (map scripts.the_edit edits.now) }
    requires few_lines { length edits.now ≤ MOST_LINES }
    requires cat { session.old.cat ≡ cat.now }
    requires few { AreFew cat.now session.old.statements }
    requires budget { budget ≤ MOST_PAGES }
    requires some { 1 ≤ nodes }
    requires nodes { nodes ≤ MOST_NODES }
    ensures tuned { IfOk result (λ tuned. spec.AreTunedOver cat.now budget nodes session.old.statements (map scripts.the_edit edits.now) tuned) }
    ensures fits { IfOk result (λ tuned. All (FitsCatalogue cat.now) tuned) }
    ensures stop { IfErr result (StopsAt (inner.OfEdit (spec.IsFirstFault cat.now session.old.statements 1 (map scripts.the_edit edits.now)))) }
{
    let mut all = Vec::new(alloc);
    let mut remembered = Remembered::nothing(alloc);
    'edits: for at in 0..edits.len() {
        let edit = edits[at];
        take(alloc, cat, session, at as u32 + 1, edit)?;
        remembered.follow(edit);
        put_asked(
            alloc,
            cat,
            session,
            edit,
            budget,
            nodes,
            &mut remembered,
            &mut all,
        )?;
    }
    Ok(List { items: all })
}

/// The edits that bytes are.
fn script_of<'a>(alloc: Global, script: &'a [u8]) -> Result<Edits<'a>, Stop>
    ensures edits { IfOk result (λ edits. scripts.IsScript script.now (scripts.the_edits edits)) }
    ensures stop { IfErr result (StopsAt (inner.OfEdit (λ line fault. (fault ≡ EditFault.BadLine) × scripts.IsBadLine script.now line))) }
{
    match read_edits(alloc, script) {
        Ok(edits) => Ok(edits),
        Err(ScriptFault::Memory) => Err(Stop::Memory),
        Err(ScriptFault::BadLine(line)) => Err(refused(line, EditFault::BadLine)),
    }
}

/// The advice on a workload wherever the bytes of a script ask for it that changes the workload step by step, each over the
/// candidates of the statements as they are there. The workload was read from the bytes `load`, and proposes this. Or the
/// first refusal: a bad line of the script, a statement of the workload with too many combinations of interesting orders, an
/// edit that can't be taken.
pub(crate) fn retune_workload(
    alloc: Global,
    setting: &Setting<'_>,
    proposed: Proposed,
    load: &[u8],
    script: &[u8],
    budget: u64,
    nodes: u32,
) -> Result<Done, Stop>
    requires proposed { IsProposed setting.now.cat.now setting.now.statements.now proposed }
    requires read { AreStatementsOf setting.now.cat.now load.now setting.now.statements.now }
    requires short { length load.now ≤ MOST_FILE_BYTES }
    requires script_short { length script.now ≤ MOST_FILE_BYTES }
    requires budget { budget ≤ MOST_PAGES }
    requires some { 1 ≤ nodes }
    requires nodes { nodes ≤ MOST_NODES }
    ensures gives { IfOk result (spec.Gives budget nodes script.now (the_setting setting.now)) }
    ensures fits { IfOk result (FitsSetting (Some (the_setting setting.now))) }
    ensures bound { IfOk result IsBounded }
    ensures stop { IfErr result (StopsAt (spec.Refuses script.now (the_setting setting.now))) }
{
    let edits = script_of(alloc, script)?;
    let mut session = session_of(alloc, setting, proposed, load)?;
    let list = edits.list.as_slice();
    let all = advices(alloc, setting.cat, &mut session, list, budget, nodes)?;
    Ok(Done::Retuned(all))
}
