//! Advice on made workloads.
use crate::runs::compare_advice;
use crate::scene::walk;

/// Advice on made workloads within no page, so that nothing can be picked. A second program, from what is said of the
/// generator and of prices, made the same workloads, counted their slots and computed what they cost without an index; the
/// candidates were counted by hand.
const MADE: &str =
    r#"1-1|0|bench 1 2 5 0|T|||tables 2~statements 5~slots 6~budget 0~candidates 11 left over 0~size 0~cost 4944003918~bound 4944003918~gap 0~nodes # of 20000~finished~
1-1|0|bench 7 20 500 0|T|||tables 20~statements 500~slots 606~budget 0~candidates 180 left over 0~size 0~cost 568912639352~bound 568912639352~gap 0~nodes # of 20000~finished~"#;

/// Command lines that advise on made workloads, and how what they print begins.
const MADE_TWICE: &str =
    r#"bench 7 4 20 2000|tables 4~statements 20~slots 25~budget 2000~candidates 23 left over 0~
bench 18446744073709551615 3 8 1000000000000|tables 3~statements 8~slots 11~budget 1000000000000~
bench 7 20 500 0|tables 20~statements 500~slots 606~budget 0~candidates 180 left over 0~size 0~cost 568912639352~"#;

/// Runs a line twice over no file it reads, and compares the two outputs and how they begin.
const TWICE: &str = "files EMPTY||
room 5000
any $0$
mark
same $0$
advice $1$";

#[test]
fn advice_on_made_workloads_is_best(rt: HostRuntime) {
    compare_advice(&rt, rt.alloc(), MADE);
}

#[test]
fn a_seed_gives_the_same_advice_each_time(rt: HostRuntime) {
    walk(&rt, rt.alloc(), TWICE, MADE_TWICE);
}
