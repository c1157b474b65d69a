//! The conditions of ON and WHERE.
ghost use Rattle.std.specs.Prelude.{◌≡◌, OnOk, All};
ghost use Rattle.adv_base.specs.declared.workload.predicate.Test.TheVariants as kinds_of_test;
ghost use Rattle.adv_base.specs.Limits.Tests.{TestLimits};
ghost use Rattle.binder.specs.Limits.{ConditionLimits, NameLimits};
ghost use Rattle.binder.specs.Conditions as where_clause;
ghost use Rattle.binder.specs.Faults.{Gives};
ghost use Rattle.binder.specs.View.{names_of, plain_tests};

use crate::fault::BindFault;
use crate::gathered::{SlotColumn, Tests};
use crate::meaning::meaning;
use crate::scope::Scope;
use crate::values::literal_value;
use adv_base::{Edge, List, Pred, Test, Value};
use sql_reader::{Compare, Condition, Literal, NameUse};
use std::alloc::{AllocError, Global};

/// No tests.
fn no_tests(alloc: Global) -> Tests
    ensures { plain_tests result ≡ where_clause.no_tests }
{
    Tests {
        preds: List::new(alloc),
        edges: List::new(alloc),
        mentions: List::new(alloc),
    }
}

/// What a comparison with a value asks.
fn compare_test(compare: Compare, value: Value) -> Test
    ensures exact { result ≡ where_clause.compare_test compare value }
    ensures limits { TestLimits result }
{
    match compare {
        Compare::Equal => Test::Equal,
        Compare::NotEqual => Test::NotEqual,
        Compare::Below => Test::Below(value),
        Compare::Above => Test::Above(value),
    }
}

/// Puts a test of one column behind the others.
fn put_test(so_far: &mut Tests, c: SlotColumn, test: Test) -> Result<(), AllocError>
    requires { TestLimits test }
    ensures { OnOk result (plain_tests so_far.new ≡ where_clause.with_test (plain_tests so_far.old) c test) }
{
    so_far.preds.items.push(Pred {
        slot: c.slot,
        column: c.column,
        test,
    })?;
    so_far.mentions.items.push(c)?;
    Ok(())
}

/// Puts an equality of two columns behind the tests.
fn put_equality(so_far: &mut Tests, c: SlotColumn, d: SlotColumn) -> Result<(), AllocError>
    ensures { OnOk result (plain_tests so_far.new ≡ where_clause.with_equality (plain_tests so_far.old) c d) }
{
    so_far.mentions.items.push(c)?;
    so_far.mentions.items.push(d)?;
    if c.slot == d.slot {
        so_far.preds.items.push(Pred {
            slot: c.slot,
            column: c.column,
            test: Test::Same(d.column),
        })?;
    } else {
        so_far.edges.items.push(Edge {
            left: c.slot,
            left_column: c.column,
            right: d.slot,
            right_column: d.column,
        })?;
    }
    Ok(())
}

/// Puts a test of what a name means behind the others.
fn put_named(
    alloc: Global,
    scope: &Scope<'_>,
    so_far: &mut Tests,
    name: NameUse,
    test: Test,
) -> Result<(), BindFault>
    requires name_short { NameLimits name }
    requires limits { TestLimits test }
    ensures { Gives (λ _. plain_tests so_far.new) result (where_clause.named_test (names_of scope.now) (plain_tests so_far.old) name (λ _. test)) }
{
    let c = meaning(alloc, scope, name)?;
    Ok(put_test(so_far, c, test)?)
}

/// Puts a comparison of what a name means behind the tests.
fn put_compared(
    alloc: Global,
    scope: &Scope<'_>,
    so_far: &mut Tests,
    name: NameUse,
    compare: Compare,
    literal: Literal,
) -> Result<(), BindFault>
    requires { NameLimits name }
    ensures { let names = names_of scope.now in
        Gives (λ _. plain_tests so_far.new) result (where_clause.named_test names (plain_tests so_far.old) name (λ c. where_clause.compare_test compare (where_clause.literal_value names c literal))) }
{
    let c = meaning(alloc, scope, name)?;
    let value = literal_value(scope, c, literal);
    Ok(put_test(so_far, c, compare_test(compare, value))?)
}

/// Puts a BETWEEN of what a name means behind the tests.
fn put_between(
    alloc: Global,
    scope: &Scope<'_>,
    so_far: &mut Tests,
    name: NameUse,
    low: Literal,
    high: Literal,
) -> Result<(), BindFault>
    requires { NameLimits name }
    ensures { let names = names_of scope.now in
        Gives (λ _. plain_tests so_far.new) result (where_clause.named_test names (plain_tests so_far.old) name (λ c. kinds_of_test.Between (where_clause.literal_value names c low) (where_clause.literal_value names c high))) }
{
    let c = meaning(alloc, scope, name)?;
    let least = literal_value(scope, c, low);
    let most = literal_value(scope, c, high);
    Ok(put_test(so_far, c, Test::Between(least, most))?)
}

/// Puts an equality of what two names mean behind the tests.
fn put_tied(
    alloc: Global,
    scope: &Scope<'_>,
    so_far: &mut Tests,
    left: NameUse,
    right: NameUse,
) -> Result<(), BindFault>
    requires left_short { NameLimits left }
    requires right_short { NameLimits right }
    ensures { Gives (λ _. plain_tests so_far.new) result (where_clause.named_equality (names_of scope.now) (plain_tests so_far.old) left right) }
{
    let c = meaning(alloc, scope, left)?;
    let d = meaning(alloc, scope, right)?;
    Ok(put_equality(so_far, c, d)?)
}

/// Puts one condition more behind the tests.
#[tactic(auto, unfolding(crate::specs::Conditions::with_condition))]
fn put_condition(
    alloc: Global,
    scope: &Scope<'_>,
    so_far: &mut Tests,
    condition: Condition,
) -> Result<(), BindFault>
    requires { ConditionLimits condition }
    ensures { Gives (λ _. plain_tests so_far.new) result (where_clause.with_condition (names_of scope.now) (plain_tests so_far.old) condition) }
{
    match condition {
        Condition::Compared(name, compare, literal) => {
            put_compared(alloc, scope, so_far, name, compare, literal)
        }
        Condition::Tied(left, right) => put_tied(alloc, scope, so_far, left, right),
        Condition::Between(name, low, high) => put_between(alloc, scope, so_far, name, low, high),
        Condition::OneOf(name, count) => put_named(alloc, scope, so_far, name, Test::OneOf(count)),
        Condition::Like(name) => put_named(alloc, scope, so_far, name, Test::Like),
        Condition::IsNull(name) => put_named(alloc, scope, so_far, name, Test::IsNull),
        Condition::NotNull(name) => put_named(alloc, scope, so_far, name, Test::NotNull),
    }
}

/// The tests of conditions, in written order.
pub fn tests(alloc: Global, scope: &Scope<'_>, conditions: &[Condition]) -> Result<Tests, BindFault>
    requires { All ConditionLimits conditions.now }
    ensures { Gives plain_tests result (where_clause.tests_of (names_of scope.now) conditions.now) }
{
    let mut so_far = no_tests(alloc);
    for condition in conditions {
        put_condition(alloc, scope, &mut so_far, *condition)?;
    }
    Ok(so_far)
}
