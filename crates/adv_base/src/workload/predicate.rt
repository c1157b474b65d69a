//! Predicates on one column.
ghost use Rattle.adv_base.specs.Limits.Tests.{TestLimits};

/// A value that a column is compared with: a number, or a day as its number, where the column's statistics can tell
/// its place; any other value is plain.
#[derive(Clone, Copy, Debug, PartialEq, Eq)]
pub enum Value {
    Number(i64),
    Plain,
}

/// What is asked of a column. `Below` and `Above` hold with and without equality; `OneOf` has the number of its items.
#[derive(Clone, Copy, Debug, PartialEq, Eq)]
pub enum Test {
    Equal,
    NotEqual,
    Below(Value),
    Above(Value),
    Between(Value, Value),
    OneOf(u32),
    Like,
    IsNull,
    NotNull,
    /// Equal to the column of this number in the same slot.
    Same(u16),
}

impl Test {
    ghost use Rattle.std.specs.Prelude.{◌≡◌};
    ghost use Rattle.adv_base.specs.Predicates as predicates;

    /// Whether it is equality with a literal, which binds the column.
    pub fn is_equality(self) -> bool
        ensures { result ≡ predicates.is_equality self }
    {
        matches!(self, Test::Equal)
    }

    /// Whether it gives the column one or some literals: equality with a literal, or IN.
    pub fn is_point(self) -> bool
        ensures { result ≡ predicates.is_point self }
    {
        matches!(self, Test::Equal | Test::OneOf(_))
    }

    /// Whether it asks for a range: `<`, `<=`, `>`, `>=` or BETWEEN.
    pub fn is_range(self) -> bool
        ensures { result ≡ predicates.is_range self }
    {
        matches!(self, Test::Below(_) | Test::Above(_) | Test::Between(_, _))
    }
}

/// A test of one column of one slot.
#[derive(Clone, Copy, Debug)]
pub struct Pred {
    pub slot: u8,
    pub column: u16,
    pub test: Test,
    pub ghost limits: { TestLimits test },
}
