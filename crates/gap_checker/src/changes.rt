//! Which statements a change of the available candidates touches.
ghost use Rattle.std.specs.Prelude.{◌≡◌, ℕ, ◌≤◌, if◌then◌else◌, not, false, true, length, None};
ghost use Rattle.std.specs.Option.{ForSome};
ghost use Rattle.adv_base.specs.Configs.{has_candidate};
ghost use Rattle.adv_base.specs.declared.limits.TheConstants.{MOST_CANDIDATES};
ghost use Rattle.gap_checker.specs.inner.Changes as changing;

use adv_base::limits::MOST_TABLES;
use adv_base::{Config, IndexShape, Slot, Work};

/// The tables on which a candidate became available or ceased to be, since the costs that are kept were found; `all` where
/// none are kept.
#[derive(Clone, Copy)]
pub(crate) struct Changes {
    pub all: bool,
    pub tables: [bool; MOST_TABLES],
}

/// Whether one of two holds alone.
fn one_alone(a: bool, b: bool) -> bool
    ensures { result ≡ (if a then not b else b) }
{
    if a { !b } else { b }
}

/// Marks a table.
fn mark(tables: &mut [bool; MOST_TABLES], table: u16)
    ensures own { changing.is_marked tables.new table ≡ true }
    ensures others { (t : ℕ) → changing.is_marked tables.new t ≡ false → changing.is_marked tables.old t ≡ false }
{
    let at = table as usize;
    if at >= MOST_TABLES {
        return;
    }
    tables[at] = true;
}

/// Marks the table of a candidate that is available under one of two configurations alone.
fn mark_changed(
    tables: &mut [bool; MOST_TABLES],
    table: u16,
    from: &Config,
    to: &Config,
    number: u16,
)
    ensures own { changing.is_marked tables.new table ≡ false → has_candidate from.now number ≡ has_candidate to.now number }
    ensures others { (t : ℕ) → changing.is_marked tables.new t ≡ false → changing.is_marked tables.old t ≡ false }
{
    if !one_alone(from.has(number), to.has(number)) {
        return;
    }
    mark(tables, table);
}

/// The tables of all such candidates.
fn changed_tables(shapes: &[IndexShape], from: &Config, to: &Config) -> [bool; MOST_TABLES]
    requires { length shapes.now ≤ MOST_CANDIDATES }
    ensures { changing.AgreeApart result from.now to.now shapes.now }
{
    let mut tables = [false; MOST_TABLES];
    for a in 0..shapes.len() {
        mark_changed(&mut tables, shapes[a].table, from, to, a as u16 + 1);
    }
    tables
}

/// What changed from the configuration of the costs that are kept, if any are, to another.
pub(crate) fn changes_of(shapes: &[IndexShape], from: &Option<Config>, to: &Config) -> Changes
    requires { length shapes.now ≤ MOST_CANDIDATES }
    ensures kept { ForSome from.now (λ config. changing.AgreeApart result.tables config to.now shapes.now) }
    ensures none { from.now ≡ None → result.all ≡ true }
{
    match from {
        Some(config) => Changes {
            all: false,
            tables: changed_tables(shapes, config, to),
        },
        None => Changes {
            all: true,
            tables: [true; MOST_TABLES],
        },
    }
}

/// Whether a table is marked.
fn is_marked(tables: &[bool; MOST_TABLES], table: u16) -> bool
    ensures { result ≡ changing.is_marked tables.now table }
{
    let at = table as usize;
    if at < MOST_TABLES { tables[at] } else { true }
}

/// Whether one of the slots is on a marked table.
fn any_marked(tables: &[bool; MOST_TABLES], slots: &[Slot]) -> bool
    ensures { result ≡ false → changing.NoneMarked tables.now slots.now }
{
    for i in 0..slots.len() {
        if is_marked(tables, slots[i].table) {
            return true;
        }
    }
    false
}

/// Whether a statement may cost another number than what is kept.
pub(crate) fn touches(changes: &Changes, work: &Work) -> bool
    ensures { result ≡ false → changing.IsUntouched changes.now work.now }
{
    if changes.all {
        return true;
    }
    match work.block() {
        Some(block) => any_marked(&changes.tables, block.slots.as_slice()),
        None => false,
    }
}
