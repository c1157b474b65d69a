//! The texts of faults, and of certificates that prove their bound or don't.
use crate::reports::asserts::assert_text;
use gap_checker::{CheckFault, Checked};
use report::{Done, NotProved, Role, WordFault};

#[test]
fn faults_of_words_and_files(rt: HostRuntime) {
    for (fault, want) in [
        (WordFault::NoCommand, "usage: no command\n"),
        (
            WordFault::UnknownCommand(1),
            "usage: unknown command at word 1\n",
        ),
        (WordFault::Missing(3), "usage: missing word 3\n"),
        (WordFault::Extra(4), "usage: extra word 4\n"),
        (
            WordFault::UnknownOption(5),
            "usage: unknown option at word 5\n",
        ),
        (WordFault::Twice(7), "usage: option twice at word 7\n"),
        (
            WordFault::BadNumber(4294967295),
            "usage: bad number at word 4294967295\n",
        ),
    ] {
        let done = Done::Usage(fault);
        assert_text(&rt, rt.alloc(), &done, None, want);
    }
    for (role, want) in [
        (Role::Catalogue, "read fault: shop.toml\n"),
        (Role::Workload, "read fault: load.sql\n"),
        (Role::Third, "read fault: none.conf\n"),
    ] {
        let done = Done::ReadFault(role);
        assert_text(&rt, rt.alloc(), &done, None, want);
    }
    assert_text(&rt, rt.alloc(), &Done::WriteFault, None, "");
    assert_text(&rt, rt.alloc(), &Done::Memory, None, "");
}

#[test]
fn proofs_are_told_with_their_bound(rt: HostRuntime) {
    for (cost, bound, want) in [
        (5, 5, "proved cost 5 bound 5 budget 4\n"),
        (5, -3, "proved cost 5 bound -3 budget 4\n"),
        (
            170141183460469231731687303715884105727,
            -170141183460469231731687303715884105727,
            "proved cost 170141183460469231731687303715884105727 bound -170141183460469231731687303715884105727 budget 4\n",
        ),
    ] {
        let done = Done::Checked(Checked {
            budget: 4,
            cost,
            bound,
        });
        assert_text(&rt, rt.alloc(), &done, None, want);
    }
}

#[test]
fn faults_of_certificates(rt: HostRuntime) {
    for (fault, want) in [
        (CheckFault::BadConfig(3), "not proved: no candidate 3\n"),
        (CheckFault::OverBudget(7, 4), "not proved: size 7 over 4\n"),
        (
            CheckFault::CostDiffers(954000, 874000),
            "not proved: cost 954000 computed 874000\n",
        ),
        (
            CheckFault::BadPair(16, 1500000),
            "not proved: set 16 entry 1500000 names no pair\n",
        ),
        (
            CheckFault::BadBranch(999999),
            "not proved: branch at node 999999\n",
        ),
        (
            CheckFault::LeafBelow(3, 954000, 954001),
            "not proved: leaf 3 has 954000 below 954001\n",
        ),
        (
            CheckFault::LeafBelow(3, -8, -7),
            "not proved: leaf 3 has -8 below -7\n",
        ),
        (
            CheckFault::NotInfeasible(2, 3),
            "not proved: leaf 2 has size 3\n",
        ),
        (
            CheckFault::Clash(2, 5),
            "not proved: candidates 2 and 5 clash\n",
        ),
    ] {
        let done = Done::NotProved(NotProved::Fault(fault));
        assert_text(&rt, rt.alloc(), &done, None, want);
    }
    let done = Done::NotProved(NotProved::Malformed(1500028));
    let want = "not proved: malformed at line 1500028\n";
    assert_text(&rt, rt.alloc(), &done, None, want);
}
