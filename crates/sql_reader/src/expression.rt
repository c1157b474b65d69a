//! Reads expressions.
ghost use Rattle.sql_reader.specs.Grammar as rule;
ghost use Rattle.sql_reader.specs.inner.Reads.{AddsBy, AddsNested};
ghost use Rattle.sql_reader.specs.inner.Room as room;
ghost use Rattle.sql_reader.specs.Rule.{Call, Parenthesis, Signed};
ghost use Rattle.sql_reader.specs.Values as values;
ghost use Rattle.std.specs.Prelude.{◌≡◌};

use crate::cursor::{Cursor, GrammarReader, Unread};
use crate::literal::{LITERALS, SIGNS};
use crate::name::{NAMES, PLAIN_NAMES};
use crate::{ExprForm, NameUse, Seen, Terminal, TerminalKind};

/// The operators between two operands.
pub const OPERATORS: [TerminalKind; 4] = [
    TerminalKind::Plus,
    TerminalKind::Minus,
    TerminalKind::Star,
    TerminalKind::Operator,
];

impl Terminal {
    /// The form of an expression that is this literal alone.
    pub fn form(self) -> ExprForm
        ensures { result ≡ values.literal_form self.kind self.number }
    {
        match self.kind {
            TerminalKind::Whole => match self.number {
                Some(number) => number_form(number),
                None => ExprForm::Other,
            },
            _ => ExprForm::Other,
        }
    }
}

/// The form of a whole number alone: an ordinal where it is below 2^32.
fn number_form(number: i64) -> ExprForm
    ensures { result ≡ values.number_form (Some number) }
{
    match u32::try_from(number.unsigned_abs()) {
        Ok(ordinal) => ExprForm::Number(ordinal),
        Err(_) => ExprForm::Other,
    }
}

impl TerminalKind {
    /// Whether the kind is the name of an aggregate function.
    pub fn is_aggregate(self) -> bool
        ensures { result ≡ values.is_aggregate self }
    {
        match self {
            TerminalKind::Aggregate => true,
            _ => false,
        }
    }
}

impl GrammarReader {
    /// The parentheses of a call behind a name, or the end of a column.
    #[tactic(auto, unfolding(crate::specs::Grammar::called_name))]
    #[cycle(expression)]
    pub fn called_name(
        self,
        cursor: &mut Cursor<'_>,
        found: &mut Seen,
        name: Terminal,
    ) -> Result<(), Unread>
        requires { room.Fits found.old.stars cursor.old }
        ensures reads { AddsBy rule.called_name (found.old, name) self cursor.old result found.new cursor.new }
        ensures room { room.Spends found.old.stars cursor.old found.new.stars cursor.new }
    {
        if cursor.begins(&[TerminalKind::Open]) {
            found.aggregate = found.aggregate || name.kind.is_aggregate();
            return self.nested_call(cursor, found);
        }
        found.add_use(NameUse {
            qualifier: None,
            name: name.span,
        })
    }

    /// What stands behind a name in an expression.
    #[tactic(auto, unfolding(crate::specs::Grammar::after_operand_name))]
    #[cycle(expression)]
    fn after_operand_name(
        self,
        cursor: &mut Cursor<'_>,
        found: &mut Seen,
        name: Terminal,
    ) -> Result<(), Unread>
        requires { room.Fits found.old.stars cursor.old }
        ensures reads { AddsBy rule.after_operand_name (found.old, name) self cursor.old result found.new cursor.new }
        ensures room { room.Spends found.old.stars cursor.old found.new.stars cursor.new }
    {
        if !cursor.begins(&[TerminalKind::Point]) {
            return self.called_name(cursor, found, name);
        }
        cursor.take(&[TerminalKind::Point])?;
        let second = cursor.take(&NAMES)?;
        found.add_use(NameUse {
            qualifier: Some(name.span),
            name: second.span,
        })
    }

    /// What stands behind DATE in an expression.
    #[tactic(auto, unfolding(crate::specs::Grammar::after_operand_date))]
    #[cycle(expression)]
    fn after_operand_date(
        self,
        cursor: &mut Cursor<'_>,
        found: &mut Seen,
        name: Terminal,
    ) -> Result<(), Unread>
        requires { room.Fits found.old.stars cursor.old }
        ensures reads { AddsBy rule.after_operand_date (found.old, name) self cursor.old result found.new cursor.new }
        ensures room { room.Spends found.old.stars cursor.old found.new.stars cursor.new }
    {
        if !cursor.begins(&[TerminalKind::Day]) {
            return self.after_operand_name(cursor, found, name);
        }
        cursor.take(&[TerminalKind::Day])?;
        found.form = ExprForm::Other;
        Ok(())
    }

    /// An operand that begins with no name.
    #[tactic(auto, unfolding(crate::specs::Grammar::other_operand))]
    #[cycle(expression)]
    pub fn other_operand(self, cursor: &mut Cursor<'_>, found: &mut Seen) -> Result<(), Unread>
        requires { room.Fits found.old.stars cursor.old }
        ensures reads { AddsBy rule.other_operand found.old self cursor.old result found.new cursor.new }
        ensures room { room.Spends found.old.stars cursor.old found.new.stars cursor.new }
    {
        if cursor.begins(&[TerminalKind::Open]) {
            return self.nested_parenthesis(cursor, found);
        }
        if cursor.begins(&SIGNS) {
            return self.nested_signed(cursor, found);
        }
        let literal = cursor.take(&LITERALS)?;
        found.form = literal.form();
        Ok(())
    }

    /// An operand.
    #[tactic(auto, unfolding(crate::specs::Grammar::operand))]
    #[cycle(expression)]
    fn operand(self, cursor: &mut Cursor<'_>, found: &mut Seen) -> Result<(), Unread>
        requires { room.Fits found.old.stars cursor.old }
        ensures reads { AddsBy rule.operand found.old self cursor.old result found.new cursor.new }
        ensures room { room.Spends found.old.stars cursor.old found.new.stars cursor.new }
    {
        if cursor.begins(&[TerminalKind::Date]) {
            let name = cursor.take(&[TerminalKind::Date])?;
            return self.after_operand_date(cursor, found, name);
        }
        if cursor.begins(&PLAIN_NAMES) {
            let name = cursor.take(&PLAIN_NAMES)?;
            return self.after_operand_name(cursor, found, name);
        }
        self.other_operand(cursor, found)
    }

    /// An operator and its right side.
    #[tactic(auto, unfolding(crate::specs::Grammar::operation))]
    #[cycle(expression)]
    fn operation(self, cursor: &mut Cursor<'_>, found: &mut Seen) -> Result<(), Unread>
        requires { room.Fits found.old.stars cursor.old }
        ensures reads { AddsBy rule.operation found.old self cursor.old result found.new cursor.new }
        ensures room { room.Spends found.old.stars cursor.old found.new.stars cursor.new }
    {
        cursor.take(&OPERATORS)?;
        self.operand(cursor, found)?;
        found.form = ExprForm::Other;
        Ok(())
    }

    /// The operators behind an operand, with their right sides.
    #[cycle(expression)]
    pub fn operations(self, cursor: &mut Cursor<'_>, found: &mut Seen) -> Result<(), Unread>
        requires { room.Fits found.old.stars cursor.old }
        ensures reads { AddsBy rule.operations found.old self cursor.old result found.new cursor.new }
        ensures room { room.Spends found.old.stars cursor.old found.new.stars cursor.new }
    {
        'turns: while cursor.begins(&OPERATORS) {
            self.operation(cursor, found)?;
        }
        Ok(())
    }

    /// An expression.
    #[tactic(auto, unfolding(crate::specs::Grammar::expression))]
    #[cycle(expression)]
    pub fn expression(self, cursor: &mut Cursor<'_>, found: &mut Seen) -> Result<(), Unread>
        requires { room.Fits found.old.stars cursor.old }
        ensures reads { AddsBy rule.expression found.old self cursor.old result found.new cursor.new }
        ensures room { room.Spends found.old.stars cursor.old found.new.stars cursor.new }
    {
        self.operand(cursor, found)?;
        self.operations(cursor, found)
    }

    /// A comma and an expression.
    #[tactic(auto, unfolding(crate::specs::Grammar::another_expression))]
    #[cycle(expression)]
    fn another_expression(self, cursor: &mut Cursor<'_>, found: &mut Seen) -> Result<(), Unread>
        requires { room.Fits found.old.stars cursor.old }
        ensures reads { AddsBy rule.another_expression found.old self cursor.old result found.new cursor.new }
        ensures room { room.Spends found.old.stars cursor.old found.new.stars cursor.new }
    {
        cursor.take(&[TerminalKind::Comma])?;
        self.expression(cursor, found)
    }

    /// More expressions behind commas.
    #[cycle(expression)]
    fn more_expressions(self, cursor: &mut Cursor<'_>, found: &mut Seen) -> Result<(), Unread>
        requires { room.Fits found.old.stars cursor.old }
        ensures reads { AddsBy rule.more_expressions found.old self cursor.old result found.new cursor.new }
        ensures room { room.Spends found.old.stars cursor.old found.new.stars cursor.new }
    {
        'turns: while cursor.begins(&[TerminalKind::Comma]) {
            self.another_expression(cursor, found)?;
        }
        Ok(())
    }

    /// Expressions with commas between them.
    #[tactic(auto, unfolding(crate::specs::Grammar::expressions))]
    #[cycle(expression)]
    pub fn expressions(self, cursor: &mut Cursor<'_>, found: &mut Seen) -> Result<(), Unread>
        requires { room.Fits found.old.stars cursor.old }
        ensures reads { AddsBy rule.expressions found.old self cursor.old result found.new cursor.new }
        ensures room { room.Spends found.old.stars cursor.old found.new.stars cursor.new }
    {
        self.expression(cursor, found)?;
        self.more_expressions(cursor, found)
    }

    /// The argument `*` of a call, to the closing parenthesis.
    #[tactic(auto, unfolding(crate::specs::Grammar::star_argument))]
    fn star_argument(self, cursor: &mut Cursor<'_>, found: &mut Seen) -> Result<(), Unread>
        requires { room.Fits found.old.stars cursor.old }
        ensures reads { AddsBy rule.star_argument found.old self cursor.old result found.new cursor.new }
        ensures room { room.Spends found.old.stars cursor.old found.new.stars cursor.new }
    {
        cursor.take(&[TerminalKind::Star])?;
        found.stars += 1;
        cursor.take(&[TerminalKind::Close])?;
        found.form = ExprForm::Other;
        Ok(())
    }

    /// DISTINCT, perhaps.
    #[tactic(auto, unfolding(crate::specs::Grammar::maybe_distinct))]
    fn maybe_distinct(self, cursor: &mut Cursor<'_>, found: &Seen) -> Result<(), Unread>
        requires { room.Fits found.now.stars cursor.old }
        ensures reads { AddsBy rule.maybe_distinct found.now self cursor.old result found.now cursor.new }
        ensures room { room.Spends found.now.stars cursor.old found.now.stars cursor.new }
    {
        if !cursor.begins(&[TerminalKind::Distinct]) {
            return Ok(());
        }
        cursor.take(&[TerminalKind::Distinct])?;
        Ok(())
    }

    /// The expressions that are the arguments of a call, to the closing parenthesis.
    #[tactic(auto, unfolding(crate::specs::Grammar::listed_arguments))]
    #[cycle(expression)]
    fn listed_arguments(self, cursor: &mut Cursor<'_>, found: &mut Seen) -> Result<(), Unread>
        requires { room.Fits found.old.stars cursor.old }
        ensures reads { AddsBy rule.listed_arguments found.old self cursor.old result found.new cursor.new }
        ensures room { room.Spends found.old.stars cursor.old found.new.stars cursor.new }
    {
        self.maybe_distinct(cursor, found)?;
        self.expressions(cursor, found)?;
        cursor.take(&[TerminalKind::Close])?;
        found.form = ExprForm::Other;
        Ok(())
    }

    /// The arguments of a call, behind its opening parenthesis.
    #[tactic(auto, unfolding(crate::specs::Grammar::arguments))]
    #[cycle(expression)]
    fn arguments(self, cursor: &mut Cursor<'_>, found: &mut Seen) -> Result<(), Unread>
        requires { room.Fits found.old.stars cursor.old }
        ensures reads { AddsBy rule.arguments found.old self cursor.old result found.new cursor.new }
        ensures room { room.Spends found.old.stars cursor.old found.new.stars cursor.new }
    {
        if cursor.begins(&[TerminalKind::Close]) {
            cursor.take(&[TerminalKind::Close])?;
            found.form = ExprForm::Other;
            return Ok(());
        }
        if cursor.begins(&[TerminalKind::Star]) {
            return self.star_argument(cursor, found);
        }
        self.listed_arguments(cursor, found)
    }

    /// The parentheses of a call.
    #[tactic(auto, unfolding(crate::specs::Grammar::call))]
    #[cycle(expression)]
    fn call(self, cursor: &mut Cursor<'_>, found: &mut Seen) -> Result<(), Unread>
        requires { room.Fits found.old.stars cursor.old }
        ensures reads { AddsBy rule.call found.old self cursor.old result found.new cursor.new }
        ensures room { room.Spends found.old.stars cursor.old found.new.stars cursor.new }
    {
        cursor.take(&[TerminalKind::Open])?;
        self.arguments(cursor, found)
    }

    /// An expression in parentheses.
    #[tactic(auto, unfolding(crate::specs::Grammar::parenthesis))]
    #[cycle(expression)]
    fn parenthesis(self, cursor: &mut Cursor<'_>, found: &mut Seen) -> Result<(), Unread>
        requires { room.Fits found.old.stars cursor.old }
        ensures reads { AddsBy rule.parenthesis found.old self cursor.old result found.new cursor.new }
        ensures room { room.Spends found.old.stars cursor.old found.new.stars cursor.new }
    {
        cursor.take(&[TerminalKind::Open])?;
        self.expression(cursor, found)?;
        cursor.take(&[TerminalKind::Close])?;
        found.form = ExprForm::Other;
        Ok(())
    }

    /// A sign and an operand.
    #[tactic(auto, unfolding(crate::specs::Grammar::signed_operand))]
    #[cycle(expression)]
    fn signed_operand(self, cursor: &mut Cursor<'_>, found: &mut Seen) -> Result<(), Unread>
        requires { room.Fits found.old.stars cursor.old }
        ensures reads { AddsBy rule.signed_operand found.old self cursor.old result found.new cursor.new }
        ensures room { room.Spends found.old.stars cursor.old found.new.stars cursor.new }
    {
        cursor.take(&SIGNS)?;
        self.operand(cursor, found)?;
        found.form = ExprForm::Other;
        Ok(())
    }

    /// The parentheses of a call, one level deeper.
    #[tactic(auto, using(crate::proofs::Nested::no_call, crate::proofs::Nested::deeper_call))]
    #[cycle(expression)]
    fn nested_call(self, cursor: &mut Cursor<'_>, found: &mut Seen) -> Result<(), Unread>
        requires { room.Fits found.old.stars cursor.old }
        ensures reads { AddsNested Call found.old self cursor.old result found.new cursor.new }
        ensures room { room.Spends found.old.stars cursor.old found.new.stars cursor.new }
    {
        if self.levels == 0 {
            return Err(Unread::Here);
        }
        let inner = GrammarReader {
            levels: self.levels - 1,
        };
        inner.call(cursor, found)
    }

    /// An expression in parentheses, one level deeper.
    #[tactic(auto, using(crate::proofs::Nested::no_parenthesis, crate::proofs::Nested::deeper_parenthesis))]
    #[cycle(expression)]
    fn nested_parenthesis(self, cursor: &mut Cursor<'_>, found: &mut Seen) -> Result<(), Unread>
        requires { room.Fits found.old.stars cursor.old }
        ensures reads { AddsNested Parenthesis found.old self cursor.old result found.new cursor.new }
        ensures room { room.Spends found.old.stars cursor.old found.new.stars cursor.new }
    {
        if self.levels == 0 {
            return Err(Unread::Here);
        }
        let inner = GrammarReader {
            levels: self.levels - 1,
        };
        inner.parenthesis(cursor, found)
    }

    /// A sign and an operand, one level deeper.
    #[tactic(auto, using(crate::proofs::Nested::no_signed, crate::proofs::Nested::deeper_signed))]
    #[cycle(expression)]
    fn nested_signed(self, cursor: &mut Cursor<'_>, found: &mut Seen) -> Result<(), Unread>
        requires { room.Fits found.old.stars cursor.old }
        ensures reads { AddsNested Signed found.old self cursor.old result found.new cursor.new }
        ensures room { room.Spends found.old.stars cursor.old found.new.stars cursor.new }
    {
        if self.levels == 0 {
            return Err(Unread::Here);
        }
        let inner = GrammarReader {
            levels: self.levels - 1,
        };
        inner.signed_operand(cursor, found)
    }
}
