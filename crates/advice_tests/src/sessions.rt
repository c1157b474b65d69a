//! Steps of sessions of `retune`, each against the programme that `tuning` makes from scratch.
ghost use Rattle.std.specs.Prelude.{◌≡◌, ◌≤◌, ◌*◌, IfSome, IsSome, length};
ghost use Rattle.adv_base.specs.Named.{NamesWork};

mod texts;

use crate::opened::{catalogue_of, proposed, statement_of, statements_of, wide_catalogue};
use crate::sessions::texts::{CAT, HUB, STAR, STATEMENTS};
use adv_base::{Catalogue, List, Setting, Statement};
use bip_model::Programme;
use candidates::Candidates;
use retune::{RetuneFault, Session};
use std::alloc::Global;
use std::process::Abort;
use tuning::programme;

/// A step of a session.
#[derive(Clone, Copy, Debug)]
enum Step {
    Add(&'static str),
    Remove(u32),
    Reweigh(u32, u32),
}

/// A value as it is printed for programmers.
fn text_of(rt: &impl Abort, alloc: Global, value: &Programme) -> String {
    format!(in alloc; "{value:?}").expect(rt, "memory")
}

/// The same of candidates.
fn list_of(rt: &impl Abort, alloc: Global, value: &Candidates) -> String {
    format!(in alloc; "{value:?}").expect(rt, "memory")
}

/// Compares a session with what is made from scratch.
fn compare(rt: &impl Abort, alloc: Global, cat: &Catalogue, session: &Session<'_>)
    requires { session.now.cat ≡ cat.now }
{
    let statements = session.statements();
    let found = proposed(rt, alloc, cat, statements);
    let setting = Setting {
        cat,
        statements,
        shapes: found.list.as_slice(),
    };
    let wanted = programme(alloc, &setting).ok().expect(rt, "a programme");
    assert_eq!(rt;
        list_of(rt, alloc, session.candidates()),
        list_of(rt, alloc, &found)
    );
    assert_eq!(rt;
        text_of(rt, alloc, session.programme()),
        text_of(rt, alloc, &wanted)
    );
}

/// Takes a step.
fn take(
    rt: &impl Abort,
    alloc: Global,
    cat: &Catalogue,
    session: &mut Session<'_>,
    step: Step,
) -> Result<(), RetuneFault>
    requires { session.old.cat ≡ cat.now }
    ensures { session.new.cat ≡ cat.now }
{
    match step {
        Step::Add(text) => session.add(statement_of(rt, alloc, cat, text)),
        Step::Remove(number) => session.remove(number),
        Step::Reweigh(number, weight) => {
            assert!(rt; weight >= 1 && weight <= 1_000_000);
            session.reweigh(number, weight)
        }
    }
}

#[test]
fn rows(rt: HostRuntime) {
    let alloc = rt.alloc();
    let cat = catalogue_of(&rt, alloc, STAR);
    let mut session = Session::new(alloc, &cat, List::new(alloc))
        .ok()
        .expect(&rt, "a session");
    for (step, wanted) in [
        (Step::Remove(1), Err(RetuneFault::NoStatement(1))),
        (Step::Add("SELECT a FROM h ORDER BY b;"), Ok(())),
        (
            Step::Add(HUB),
            Err(RetuneFault::TooManyCombinations(2, 4480)),
        ),
        (Step::Remove(0), Err(RetuneFault::NoStatement(0))),
        (Step::Remove(2), Err(RetuneFault::NoStatement(2))),
        (Step::Reweigh(2, 5), Err(RetuneFault::NoStatement(2))),
        (Step::Add("UPDATE h SET a = 1 WHERE b = 2;"), Ok(())),
        (
            Step::Add("INSERT INTO p VALUES (1, 2, 3, 4, 5, 6, 7);"),
            Ok(()),
        ),
        (Step::Reweigh(2, 1_000_000), Ok(())),
        (Step::Remove(1), Ok(())),
        (Step::Reweigh(2, 9), Ok(())),
        (Step::Reweigh(3, 9), Err(RetuneFault::NoStatement(3))),
    ] {
        assert!(rt; take(&rt, alloc, &cat, &mut session, step) == wanted);
        compare(&rt, alloc, &cat, &session);
    }
}

/// The next of drawn numbers.
fn next(state: u64) -> u64 {
    state
        .wrapping_mul(6364136223846793005)
        .wrapping_add(1442695040888963407)
}

/// The text of a line.
fn line(rt: &impl Abort, number: u64) -> &'static str {
    STATEMENTS
        .lines()
        .nth((number % 14) as usize)
        .expect(rt, "a line")
}

/// A drawn step over so many statements, of which there may be 16.
fn drawn_step(rt: &impl Abort, drawn: u64, count: usize) -> Step {
    let number = ((drawn >> 20) % 16) as u32;
    match (drawn >> 60) % 4 {
        0 | 1 => Step::Reweigh(number, ((drawn >> 24) % 1_000_000) as u32 + 1),
        2 if count < 16 => Step::Add(line(rt, drawn >> 32)),
        _ => Step::Remove(number),
    }
}

#[test]
fn a_thousand_steps(rt: HostRuntime) {
    let alloc = rt.alloc();
    let cat = catalogue_of(&rt, alloc, CAT);
    let mut session = Session::new(alloc, &cat, List::new(alloc))
        .ok()
        .expect(&rt, "a session");
    let mut drawn = 1;
    for turn in 0..1000 {
        drawn = next(drawn);
        let step = drawn_step(&rt, drawn, session.statements().len());
        let _answer = take(&rt, alloc, &cat, &mut session, step);
        if turn % 100 == 99 {
            compare(&rt, alloc, &cat, &session);
        }
    }
}

/// A statement over the wide table, of columns that are drawn.
fn wide_statement(rt: &impl Abort, alloc: Global, cat: &Catalogue, drawn: u64) -> Statement
    ensures { NamesWork cat.now result.work }
{
    let [a, b, c, d] = [
        drawn >> 20 & 31,
        drawn >> 26 & 31,
        drawn >> 32 & 31,
        drawn >> 38 & 31,
    ];
    let text = format!(in alloc;
        "SELECT c{a} FROM w WHERE c{b} = 1 AND c{c} > 5 ORDER BY c{d};"
    ).expect(rt, "memory");
    statement_of(rt, alloc, cat, text.as_str())
}

/// Adds a statement over the wide table, or removes one.
fn take_wide(
    rt: &impl Abort,
    alloc: Global,
    cat: &Catalogue,
    session: &mut Session<'_>,
    adds: bool,
    drawn: u64,
) -> Result<(), RetuneFault>
    requires { session.old.cat ≡ cat.now }
    ensures { session.new.cat ≡ cat.now }
{
    if adds {
        session.add(wide_statement(rt, alloc, cat, drawn))
    } else {
        session.remove(((drawn >> 40) % 50) as u32 + 1)
    }
}

#[test]
fn more_proposals_than_candidates(rt: HostRuntime) {
    let alloc = rt.alloc();
    let cat = wide_catalogue(&rt, alloc);
    let mut session = Session::new(alloc, &cat, List::new(alloc))
        .ok()
        .expect(&rt, "a session");
    let mut drawn = 3;
    for turn in 0..126 {
        drawn = next(drawn);
        let adds = turn < 112 || turn % 3 == 0;
        assert_eq!(rt;
            take_wide(&rt, alloc, &cat, &mut session, adds, drawn),
            Ok(())
        );
        if turn % 42 == 41 {
            compare(&rt, alloc, &cat, &session);
        }
    }
    assert!(rt; session.candidates().left_over > 0);
}

#[test]
fn a_thousand_weights(rt: HostRuntime) {
    let alloc = rt.alloc();
    let cat = catalogue_of(&rt, alloc, CAT);
    let statements = statements_of(&rt, alloc, &cat, STATEMENTS.as_bytes());
    let mut session = Session::new(alloc, &cat, statements)
        .ok()
        .expect(&rt, "a session");
    let mut drawn = 7;
    for _turn in 0..1000 {
        drawn = next(drawn);
        let number = ((drawn >> 40) % 14) as u32 + 1;
        let weight = ((drawn >> 20) % 1_000_000) as u32 + 1;
        assert!(rt; session.reweigh(number, weight) == Ok(()));
    }
    compare(&rt, alloc, &cat, &session);
}

#[test]
fn no_more_than_a_thousand_statements(rt: HostRuntime) {
    let alloc = rt.alloc();
    let cat = catalogue_of(&rt, alloc, STAR);
    let mut text = String::new(alloc);
    for _turn in 0..1000 {
        text.push_str("SELECT a FROM h;").expect(&rt, "memory");
    }
    let statements = statements_of(&rt, alloc, &cat, text.as_bytes());
    let mut session = Session::new(alloc, &cat, statements)
        .ok()
        .expect(&rt, "a session");
    for (step, wanted) in [
        (
            Step::Add("SELECT a FROM h;"),
            Err(RetuneFault::TooManyStatements),
        ),
        (Step::Remove(1000), Ok(())),
        (Step::Add("SELECT a FROM h;"), Ok(())),
    ] {
        assert!(rt; take(&rt, alloc, &cat, &mut session, step) == wanted);
    }
}
