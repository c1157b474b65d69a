//! Command lines and configuration files.
use crate::scene::{split, spread};
use adv_base::Config;
use cophy_core::{read_conf, read_words};
use std::alloc::Global;
use std::process::Abort;

/// What is read, `|`, and the words.
const COMMAND_LINES: &str = r#"Err(NoCommand)|
Err(UnknownCommand(1))|price a b
Err(UnknownCommand(1))|COST a b
Err(UnknownCommand(1))|--nodes
Err(Missing(2))|cost
Err(Missing(3))|cost a
Err(Extra(4))|cost a b c
Err(Extra(4))|cost a b --nodes 5
Ok(Cost { cat: "--x", load: "-y" })|cost --x -y
Ok(Candidates { cat: "a", load: "b" })|candidates a b
Err(Missing(4))|whatif a b
Ok(WhatIf { cat: "a", load: "b", conf: "c" })|whatif a b c
Ok(Check { cat: "a", load: "b", cert: "c" })|check a b c
Err(Extra(5))|check a b c d
Err(Missing(5))|explain a b c
Err(BadNumber(5))|explain a b c 0
Err(BadNumber(5))|explain a b c 01
Err(BadNumber(5))|explain a b c +1
Err(BadNumber(5))|explain a b c 1001
Err(BadNumber(5))|explain a b c 18446744073709551617
Err(Extra(6))|explain a b c 1000 d
Ok(Explain { cat: "a", load: "b", conf: "c", number: 1 })|explain a b c 1
Ok(Explain { cat: "a", load: "b", conf: "c", number: 1000 })|explain a b c 1000
Err(BadNumber(2))|bench x
Err(BadNumber(2))|bench 18446744073709551616
Err(Missing(3))|bench 18446744073709551615
Err(BadNumber(3))|bench 1 1 5 0
Err(BadNumber(3))|bench 1 21 5 0
Err(BadNumber(4))|bench 1 20 501 0
Err(BadNumber(4))|bench 1 20 0 0
Ok(Bench { seed: 1, tables: 20, statements: 1, budget: 0 })|bench 1 20 1 0
Err(BadNumber(5))|bench 1 20 500 1000000000001
Ok(Bench { seed: 0, tables: 2, statements: 500, budget: 1000000000000 })|bench 0 2 500 1000000000000
Ok(Advise { cat: "c", load: "l", budget: 10, nodes: 20000, cert: None })|advise c l 10
Ok(Advise { cat: "c", load: "l", budget: 0, nodes: 7, cert: Some("f") })|advise c l 0 --nodes 7 --cert f
Ok(Advise { cat: "c", load: "l", budget: 0, nodes: 1000000, cert: Some("--nodes") })|advise c l 0 --cert --nodes --nodes 1000000
Err(BadNumber(4))|advise c l -1
Err(BadNumber(6))|advise c l 10 --nodes 0
Err(BadNumber(6))|advise c l 10 --nodes 1000001
Err(Twice(7))|advise c l 10 --nodes 5 --nodes 6
Err(Twice(7))|advise c l 10 --cert a --cert
Err(UnknownOption(5))|advise c l 10 --nodes=5
Err(UnknownOption(5))|advise c l 10 --
Err(Extra(5))|advise c l 10 -n
Err(Extra(9))|advise c l 10 --nodes 5 --cert f x
Err(Missing(6))|advise c l 10 --cert
Err(Missing(6))|advise c l 10 --nodes
Ok(Ruled { cat: "c", load: "l", budget: 4, rules: "r", nodes: 20000, cert: None })|ruled c l 4 r
Ok(Ruled { cat: "c", load: "l", budget: 4, rules: "--r", nodes: 7, cert: Some("f") })|ruled c l 4 --r --cert f --nodes 7
Ok(Ruled { cat: "c", load: "l", budget: 1000000000000, rules: "r", nodes: 20000, cert: None })|ruled c l 1000000000000 r
Err(BadNumber(4))|ruled c l 1000000000001 r
Err(BadNumber(4))|ruled c l r 4
Err(Missing(5))|ruled c l 4
Err(UnknownOption(6))|ruled c l 4 r --fast
Err(Extra(6))|ruled c l 4 r x
Ok(Sweep { cat: "c", load: "l", first: 0, step: 3, count: 4, nodes: 20000, cert: None })|sweep c l 0 3 4
Ok(Sweep { cat: "c", load: "l", first: 1000000000000, step: 1000000000000, count: 1, nodes: 7, cert: Some("p") })|sweep c l 1000000000000 1000000000000 1 --cert p --nodes 7
Ok(Sweep { cat: "c", load: "l", first: 1, step: 66666666666, count: 16, nodes: 20000, cert: None })|sweep c l 1 66666666666 16
Err(BadNumber(6))|sweep c l 1 1000000000000 2
Err(BadNumber(6))|sweep c l 1 66666666667 16
Err(BadNumber(6))|sweep c l 1 1000000000000 2 --fast
Err(BadNumber(6))|sweep c l 0 1 17
Err(BadNumber(6))|sweep c l 0 1 0
Err(BadNumber(5))|sweep c l 0 0 1
Err(BadNumber(4))|sweep c l 1000000000001 1 1
Err(Missing(6))|sweep c l 0 1
Err(UnknownOption(7))|sweep c l 0 1 4 --fast
Err(Extra(7))|sweep c l 0 1 4 x
Err(Missing(8))|sweep c l 0 1 4 --cert
Err(Twice(9))|sweep c l 0 1 4 --nodes 5 --nodes 6
Err(Extra(11))|sweep c l 0 1 4 --nodes 5 --cert p x
Err(BadNumber(6))|sweep c l 1000000000000 1 2
Ok(CheckRuled { cat: "c", load: "l", rules: "r", cert: "f" })|check-ruled c l r f
Err(Missing(5))|check-ruled c l r
Err(Extra(6))|check-ruled c l r f x
Ok(Fold { cat: "c", load: "l", out: "o" })|fold c l o
Err(Missing(4))|fold c l
Err(Extra(5))|fold c l o --x
Ok(Retune { cat: "c", load: "l", edits: "e", budget: 4, nodes: 20000 })|retune c l e 4
Ok(Retune { cat: "c", load: "l", edits: "--e", budget: 0, nodes: 7 })|retune c l --e 0 --nodes 7
Err(Missing(2))|retune
Err(Missing(5))|retune c l e
Err(BadNumber(5))|retune c l 4 e
Err(BadNumber(5))|retune c l e 1000000000001
Err(BadNumber(7))|retune c l e 4 --nodes 0
Err(BadNumber(5))|retune c l e x --nodes 0
Err(UnknownOption(6))|retune c l e 4 --cert f
Err(Missing(7))|retune c l e 4 --nodes
Err(Twice(8))|retune c l e 4 --nodes 5 --nodes 6
Err(Extra(6))|retune c l e 4 x"#;

/// The bytes of configuration files over three candidates, in which `~` stands for a line feed: the first faulty line,
/// or the candidates with a blank behind each, `|` and the bytes.
const CONFIGURATIONS: &str = "line 1|1\n\
line 2|2~2~\n\
line 2|2~1~\n\
line 2|1~~\n\
line 1|~\n\
line 1|01~\n\
line 1|+1~\n\
line 1| 1~\n\
line 2|1~4~\n\
line 1|0~\n\
line 3|1~2~3\n\
line 4|1~2~3~~\n\
|\n\
1 3 |1~3~\n\
1 2 3 |1~2~3~\n\
2 |2~";

/// What is read of a command line.
fn assert_words(rt: &impl Abort, alloc: Global, case: &str) {
    let (want, line) = case.split_once('|').expect(rt, "a bar");
    let words = split(rt, alloc, line);
    let found = format!(in alloc; "{:?}", read_words(words.as_slice())).expect(rt, "memory");
    assert_eq!(rt; found.as_str(), want, "{line}");
}

#[test]
fn command_lines(rt: HostRuntime) {
    for case in COMMAND_LINES.lines() {
        assert_words(&rt, rt.alloc(), case);
    }
}

/// The numbers of the candidates that a configuration has, with a blank behind each.
fn numbers(rt: &impl Abort, alloc: Global, config: &Config) -> String {
    let mut found = String::new(alloc);
    for number in 1..257u16 {
        if config.has(number) {
            found = format!(in alloc; "{found}{number} ").expect(rt, "memory");
        }
    }
    found
}

/// What is read of a configuration file.
fn assert_conf(rt: &impl Abort, alloc: Global, case: &str) {
    let (want, written) = case.split_once('|').expect(rt, "a bar");
    let bytes = spread(rt, alloc, written);
    let found = match read_conf(bytes.as_slice(), 3) {
        Err(line) => format!(in alloc; "line {line}").expect(rt, "memory"),
        Ok(config) => numbers(rt, alloc, &config),
    };
    assert_eq!(rt; found.as_str(), want, "{written}");
}

#[test]
fn configurations(rt: HostRuntime) {
    for case in CONFIGURATIONS.lines() {
        assert_conf(&rt, rt.alloc(), case);
    }
}
