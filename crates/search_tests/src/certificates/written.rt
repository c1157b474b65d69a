//! Certificates that are written from answers made by hand, and read again.
ghost use Rattle.std.specs.Prelude.{◌≡◌, ◌≤◌};
ghost use Rattle.bip_model.specs.Values as values;
ghost use Rattle.certificate.specs.Answers as answers;

use crate::certificates::CERTK;
use crate::certificates::made::{both, part, programme, set, slot, two};
use crate::made::list;
use adv_base::{Config, List};
use bip_model::{Answer, Node, Programme};
use certificate::{read_cert, write_cert};
use std::alloc::Global;
use std::process::Abort;

/// The certificate of an answer has this text, and is read from it again.
fn is_written(
    rt: &impl Abort,
    alloc: Global,
    prog: &Programme,
    version: u8,
    budget: u64,
    answer: &Answer,
    want: &str,
)
    requires some_version { 1 ≤ version }
    requires version { version ≤ 2 }
    requires limits { answers.AnswerLimits prog.now budget answer.now }
    requires order { answers.InOrder prog.now }
{
    let bytes = write_cert(alloc, prog, version, budget, answer).expect(rt, "memory");
    assert!(rt; bytes.as_slice() == want.as_bytes());
    let cert = read_cert(alloc, bytes.as_slice()).expect(rt, "a certificate");
    assert!(rt; cert.version == version);
    assert!(rt; cert.budget == budget);
    assert!(rt; cert.cost == answer.cost);
    assert!(rt; cert.bound == answer.bound);
    assert!(rt; cert.sets.len() == answer.sets.len());
    assert!(rt; cert.tree.as_slice() == answer.tree.as_slice());
}

/// Two statements: the second slot of the first has candidates 2 and 4, each other slot 1 and 256.
fn two_parts(rt: &impl Abort, alloc: Global) -> Programme
    ensures order { answers.InOrder result }
    ensures eight { values.grant_count result ≡ 8 }
{
    let first = part(rt, alloc, 2, slot(rt, alloc, 1, 256), slot(rt, alloc, 2, 4));
    let second = part(
        rt,
        alloc,
        5,
        slot(rt, alloc, 1, 256),
        slot(rt, alloc, 1, 256),
    );
    programme(rt, alloc, two(rt, alloc, first, second))
}

#[test]
fn without_sets_in_both_versions(rt: HostRuntime) {
    let alloc = rt.alloc();
    let mut config = Config::none();
    config.on[1] = true;
    let answer = Answer {
        config,
        cost: 954000,
        bound: 954000,
        sets: List::new(alloc),
        tree: list(
            &rt,
            alloc,
            &[Node::Branch(1), Node::Bounded(0), Node::Bounded(0)],
        ),
        useful: 2,
    };
    let prog = two_parts(&rt, alloc);
    is_written(&rt, alloc, &prog, 1, 4, &answer, CERTK);
    let second = CERTK
        .replacen(alloc, "certificate 1", "certificate 2", 1)
        .expect(&rt, "memory");
    is_written(&rt, alloc, &prog, 2, 4, &answer, second.as_str())
}

/// Entries with rents of 0 before, between and behind them.
#[test]
fn with_sets(rt: HostRuntime) {
    let alloc = rt.alloc();
    let mut config = Config::none();
    config.on[0] = true;
    config.on[255] = true;
    let first = set(&rt, alloc, 0, [0; 8]);
    let second = set(
        &rt,
        alloc,
        65536,
        [0, 7, 0, 0, 9, 0, 0, 1000000000000000000],
    );
    let answer = Answer {
        config,
        cost: 0,
        bound: -12,
        sets: both(&rt, alloc, first, second),
        tree: list(
            &rt,
            alloc,
            &[Node::Branch(256), Node::Overfull, Node::Bounded(2)],
        ),
        useful: 2,
    };
    is_written(
        &rt,
        alloc,
        &two_parts(&rt, alloc),
        1,
        1000000000000,
        &answer,
        "cophy certificate 1\nbudget 1000000000000\nconfig 1 256\ncost 0\nbound -12\nsets 2\nset 0 0\nset 65536 3\n2 1 256 7\n5 1 1 9\n5 2 256 1000000000000000000\ntree 3\nB 256\nX\nL 2\nend\n",
    )
}
