//! What is seen of an expression so far.

use crate::cursor::Unread;
use crate::list::push;
use crate::{Expr, NameUse};
use adv_base::List;
use std::alloc::Global;

/// What the expression that was read last is.
#[derive(Clone, Copy)]
pub enum ExprForm {
    /// A column and nothing else.
    Column,
    /// A whole number below 2^32 and nothing else.
    Number(u32),
    Other,
}

/// The columns of the expressions read so far in written order, the number of their calls of `*`, whether
/// they call an aggregate, and the form of the last of them.
#[derive(Drop)]
pub struct Seen {
    pub uses: List<NameUse>,
    pub stars: u32,
    pub aggregate: bool,
    pub form: ExprForm,
}

impl Seen {
    ghost use Rattle.std.specs.Prelude.{◌≡◌, OnOk, IfErr};
    ghost use Rattle.sql_reader.specs.Values as values;
    ghost use Rattle.sql_reader.specs.declared.cursor.Unread.TheVariants.{Memory};

    /// Nothing yet.
    pub fn new(alloc: Global) -> Seen
        ensures { result ≡ values.nothing_found }
    {
        Seen {
            uses: List::new(alloc),
            stars: 0,
            aggregate: false,
            form: ExprForm::Other,
        }
    }

    /// Adds a column.
    pub fn add_use(&mut self, name: NameUse) -> Result<(), Unread>
        ensures ok { OnOk result (self.new ≡ values.with_use self.old name) }
        ensures err { IfErr result (λ stop. stop ≡ Memory) }
        ensures stars { self.new.stars ≡ self.old.stars }
    {
        push(&mut self.uses, name)?;
        self.form = ExprForm::Column;
        Ok(())
    }

    /// The columns alone.
    pub fn into_uses(self) -> List<NameUse>
        ensures { result ≡ self.uses }
    {
        let Seen {
            uses,
            stars: _,
            aggregate: _,
            form: _,
        } = self;
        uses
    }

    /// What the expression is.
    pub fn expr(self) -> Expr
        ensures { result ≡ values.expr_of self }
    {
        let Seen {
            uses,
            stars,
            aggregate,
            form,
        } = self;
        let (plain, ordinal) = match form {
            ExprForm::Column => (true, None),
            ExprForm::Number(number) => (false, Some(number)),
            ExprForm::Other => (false, None),
        };
        Expr {
            uses,
            stars,
            plain,
            aggregate,
            ordinal,
        }
    }
}
