//! What the names of a statement see: its sources, and in HAVING and ORDER BY its select list.
ghost use Rattle.std.specs.Prelude.{◌≤◌, length};
ghost use Rattle.adv_base.specs.declared.limits.TheConstants.{MOST_SLOTS};
ghost use Rattle.binder.specs.Items.{IndexesAliases};

use crate::directory::Directory;
use crate::gathered::BoundItem;
use crate::index::NameIndex;
use adv_base::{List, Name};
use sql_reader::ParsedItem;

/// A source of a statement: the name by which it goes and its table's number.
#[derive(Drop)]
pub struct Visible {
    pub name: Name,
    pub table: u16,
}

/// The sources of a statement, at most 8, over a catalogue and the statement's text.
#[derive(Drop)]
pub struct Scope<'a> {
    pub directory: &'a Directory<'a>,
    pub text: &'a [u8],
    pub sources: List<Visible>,
    pub ghost few: { length sources ≤ MOST_SLOTS },
}

/// A select list as it is written and as it is bound, with an index of its aliases.
#[derive(Drop)]
pub struct SelectList<'a> {
    pub scope: &'a Scope<'a>,
    pub written: &'a [ParsedItem],
    pub bound: &'a [BoundItem],
    pub aliases: NameIndex,
    pub ghost indexed: { IndexesAliases scope.now.text.now written.now aliases },
}
