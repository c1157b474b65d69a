//! Binding whole statements.
ghost use Rattle.std.specs.Prelude.{◌≡◌, ◌≤◌, ◌+◌, ◌∷◌, ◌++◌, [], IfOk, OnOk, All, sum_by, length};
ghost use Rattle.adv_base.specs.declared.limits.TheConstants.{MOST_SLOTS, MOST_SLOTS_IN_ALL, MOST_STATEMENTS};
ghost use Rattle.adv_base.specs.Limits.Settings as settings;
ghost use Rattle.adv_base.specs.Named.{NamesWork};
ghost use Rattle.binder.specs.Limits.{StatementLimits, BodyLimits, WorkLimits};
ghost use Rattle.binder.specs.Plain.{plain_work, plain_statements};
ghost use Rattle.binder.specs.Faults.{Gives};
ghost use Rattle.binder.specs.Statements as meant;
ghost use Rattle.binder.specs.View.{plain_bound};

use crate::changes::{delete_block, insert_table, update_work};
use crate::directory::Directory;
use crate::fault::BindFault;
use crate::gathered::Bound;
use crate::select::select_block;
use adv_base::limits::MOST_SLOTS_IN_ALL;
use adv_base::{Catalogue, List, Statement, Work};
use sql_reader::{Body, Parsed, ParsedStatement};
use std::alloc::{AllocError, Global};

/// What a statement does, whose first token stands at a place.
#[tactic(auto, unfolding(crate::specs::Statements::work_of))]
fn work(
    alloc: Global,
    directory: &Directory<'_>,
    text: &[u8],
    place: u64,
    body: &Body,
) -> Result<Work, BindFault>
    requires { BodyLimits body.now }
    ensures exact { Gives plain_work result (meant.work_of directory.now.cat.now text.now place body.now) }
    ensures limits { IfOk result WorkLimits }
{
    match body {
        Body::Select(select) => Ok(Work::Select(select_block(
            alloc, directory, text, place, select,
        )?)),
        Body::Insert {
            table,
            columns,
            uses,
            rows,
        } => {
            let names = columns.as_slice();
            let number = insert_table(
                alloc,
                directory,
                text,
                *table,
                names,
                uses.as_slice(),
                *rows,
            )?;
            Ok(Work::Insert {
                table: number,
                rows: *rows,
            })
        }
        Body::Update {
            source,
            columns,
            uses,
            conditions,
        } => {
            let names = columns.as_slice();
            let conditions = conditions.as_slice();
            let (block, set) = update_work(
                alloc,
                directory,
                text,
                *source,
                names,
                uses.as_slice(),
                conditions,
            )?;
            Ok(Work::Update(block, set))
        }
        Body::Delete { source, conditions } => {
            let block = delete_block(alloc, directory, text, *source, conditions.as_slice())?;
            Ok(Work::Delete(block))
        }
    }
}

/// How many slots a statement has.
fn slot_count(work: &Work) -> u64
    ensures exact { result ≡ settings.slot_count work.now }
    ensures few { result ≤ MOST_SLOTS }
{
    match work {
        Work::Select(block) | Work::Update(block, _) | Work::Delete(block) => {
            block.slots.len() as u64
        }
        Work::Insert { .. } => 0,
    }
}

/// Puts a statement behind the others.
fn put(statements: &mut List<Statement>, statement: Statement) -> Result<(), AllocError>
    ensures { OnOk result (statements.new ≡ statements.old ++ statement ∷ []) }
{
    statements.items.push(statement)?;
    Ok(())
}

/// Puts what one more statement means behind the others; all together have at most 2000 slots.
#[tactic(auto, unfolding(crate::specs::Statements::with_statement, crate::specs::Statements::counted_work))]
fn put_statement(
    alloc: Global,
    directory: &Directory<'_>,
    text: &[u8],
    so_far: &mut Bound,
    statement: &ParsedStatement,
) -> Result<(), BindFault>
    requires limits { StatementLimits statement.now }
    requires few { so_far.old.slots ≤ MOST_SLOTS_IN_ALL }
    ensures exact { Gives (λ _. plain_bound so_far.new) result (meant.with_statement directory.now.cat.now text.now (plain_bound so_far.old) statement.now) }
    ensures few { OnOk result (so_far.new.slots ≤ MOST_SLOTS_IN_ALL) }
    ensures count { OnOk result (length so_far.new.statements ≡ length so_far.old.statements + 1) }
{
    let work = work(alloc, directory, text, statement.place, &statement.body)?;
    let slots = so_far.slots + slot_count(&work);
    let weight = statement.weight;
    put(&mut so_far.statements, Statement { weight, work })?;
    if slots > MOST_SLOTS_IN_ALL as u64 {
        return Err(BindFault::TooManySlotsInAll(statement.place));
    }
    so_far.slots = slots;
    Ok(())
}

/// Statements over a catalogue, in order.
fn statements(
    alloc: Global,
    directory: &Directory<'_>,
    text: &[u8],
    parsed: &[ParsedStatement],
) -> Result<Bound, BindFault>
    requires { All StatementLimits parsed.now }
    ensures exact { Gives plain_bound result (meant.bound_of directory.now.cat.now text.now parsed.now) }
    ensures count { IfOk result (λ x. length x.statements ≡ length parsed.now) }
{
    let mut so_far = Bound {
        slots: 0,
        statements: List::new(alloc),
    };
    for statement in parsed {
        put_statement(alloc, directory, text, &mut so_far, statement)?;
    }
    Ok(so_far)
}

/// The statements that a text means over a catalogue: table, column and source names turned into numbers, from 0.
///
/// Names are the same where their ASCII letters agree in any case. Statements are bound in order, and the first fault
/// is answered. Within a statement its sources come first, in order: `TooManySlots` at the ninth, `NoTable` where no
/// table has its name, `TwoAliases` where an earlier source goes by the same name. Its other names follow, as they are
/// written: `NoColumn` where a name or its qualifier has no meaning, `Ambiguous` where two slots have a column of the
/// name. Then comes `Unjoined`, at the statement's first token, where its equijoins don't connect its slots, and then
/// `TooManySlotsInAll`, there too, where the statements so far have more than 2000 slots. `Memory` may come at any time.
/// The rules of scope are those of SQL's FROM clause: a source is visible by its alias, else by its table's name.
#[tactic(auto, unfolding(crate::specs::Statements::statements_of))]
pub fn bind(
    alloc: Global,
    cat: &Catalogue,
    parsed: &Parsed<'_>,
) -> Result<List<Statement>, BindFault>
    ensures exact { Gives plain_statements result (meant.statements_of cat.now parsed.now.text.now parsed.now.statements) }
    // The tables and columns of each statement exist in the catalogue.
    ensures named { IfOk result (λ statements. All (λ statement. NamesWork cat.now statement.work) statements) }
    // There are as many as were read, and so at most 1000.
    ensures count { IfOk result (λ statements. length statements ≡ length parsed.now.statements) }
    ensures most { IfOk result (λ statements. length statements ≤ MOST_STATEMENTS) }
    // All statements together have at most 2000 slots.
    ensures few { IfOk result (λ statements. sum_by (λ statement. settings.slot_count statement.work) statements ≤ MOST_SLOTS_IN_ALL) }
{
    let directory = Directory::new(alloc, cat)?;
    let bound = statements(alloc, &directory, parsed.text, parsed.statements.as_slice())?;
    Ok(bound.statements)
}
