//! Lines of a certificate, as they are added to its text.
ghost use Rattle.std.specs.Prelude.{◌≡◌, ◌++◌, ◌∷◌, [], OnOk};
ghost use Rattle.certificate.specs.Answers as answers;
ghost use Rattle.certificate.specs.Texts as texts;
ghost use Rattle.certificate.specs.inner.Writing as writing;

use crate::cert::Entry;
use adv_base::limits::MOST_CANDIDATES;
use adv_base::{Config, push_decimal};
use bip_model::Node;
use std::alloc::{AllocError, Global};

/// Adds a space and a number.
fn push_word(alloc: Global, out: &mut Vec<u8>, n: u128) -> Result<(), AllocError>
    ensures { OnOk result (out.new.items ≡ out.old.items ++ texts.word n) }
{
    out.extend_from_slice(b" ")?;
    push_decimal(alloc, out, n)
}

/// Adds the line that is a word and a number.
pub(crate) fn push_number(
    alloc: Global,
    out: &mut Vec<u8>,
    word: &[u8],
    n: u128,
) -> Result<(), AllocError>
    ensures { OnOk result (out.new.items ≡ out.old.items ++ ((word.now ++ texts.word n) ++ 10 ∷ [])) }
{
    out.extend_from_slice(word)?;
    push_word(alloc, out, n)?;
    out.extend_from_slice(b"\n")
}

/// Adds a space and the number of a candidate, where it is chosen.
fn push_chosen(
    alloc: Global,
    out: &mut Vec<u8>,
    chosen: bool,
    number: u128,
) -> Result<(), AllocError>
    ensures { OnOk result (out.new.items ≡ out.old.items ++ writing.word_if chosen number) }
{
    if chosen {
        push_word(alloc, out, number)
    } else {
        Ok(())
    }
}

/// Adds the numbers of the chosen candidates.
fn push_numbers(alloc: Global, out: &mut Vec<u8>, config: &Config) -> Result<(), AllocError>
    ensures { OnOk result (out.new.items ≡ out.old.items ++ texts.words (answers.numbers_from 1 config.now.on)) }
{
    'flags: for at in 0..MOST_CANDIDATES {
        push_chosen(alloc, out, config.on[at], at as u128 + 1)?;
    }
    Ok(())
}

/// Adds the line of a configuration.
#[tactic(auto, unfolding(crate::specs::Texts::config_line))]
pub(crate) fn push_config(
    alloc: Global,
    out: &mut Vec<u8>,
    config: &Config,
) -> Result<(), AllocError>
    ensures { OnOk result (out.new.items ≡ out.old.items ++ (texts.config_line (answers.numbers_from 1 config.now.on) ++ 10 ∷ [])) }
{
    out.extend_from_slice(b"config")?;
    push_numbers(alloc, out, config)?;
    out.extend_from_slice(b"\n")
}

/// Adds the line of a bound.
#[tactic(auto, unfolding(crate::specs::Texts::bound_line))]
pub(crate) fn push_bound(alloc: Global, out: &mut Vec<u8>, bound: i128) -> Result<(), AllocError>
    ensures { OnOk result (out.new.items ≡ out.old.items ++ (texts.bound_line bound ++ 10 ∷ [])) }
{
    let digits = format!(in alloc; "{bound}")?;
    out.extend_from_slice(b"bound ")?;
    out.extend_from_slice(digits.as_bytes())?;
    out.extend_from_slice(b"\n")
}

/// Adds the line that begins a set of so many entries.
#[tactic(auto, unfolding(crate::specs::Texts::set_line))]
pub(crate) fn push_set_line(
    alloc: Global,
    out: &mut Vec<u8>,
    mu: u128,
    count: u128,
) -> Result<(), AllocError>
    ensures { OnOk result (out.new.items ≡ out.old.items ++ (texts.set_line mu count ++ 10 ∷ [])) }
{
    out.extend_from_slice(b"set")?;
    push_word(alloc, out, mu)?;
    push_word(alloc, out, count)?;
    out.extend_from_slice(b"\n")
}

/// Adds the line of an entry.
#[tactic(auto, unfolding(crate::specs::Texts::entry_line))]
pub(crate) fn push_entry(alloc: Global, out: &mut Vec<u8>, entry: Entry) -> Result<(), AllocError>
    ensures { OnOk result (out.new.items ≡ out.old.items ++ (texts.entry_line entry ++ 10 ∷ [])) }
{
    push_decimal(alloc, out, entry.statement as u128)?;
    push_word(alloc, out, entry.slot as u128)?;
    push_word(alloc, out, entry.candidate as u128)?;
    push_word(alloc, out, entry.lambda as u128)?;
    out.extend_from_slice(b"\n")
}

/// Adds the line of a node.
#[tactic(auto, unfolding(crate::specs::Texts::node_line))]
fn push_node(alloc: Global, out: &mut Vec<u8>, node: Node) -> Result<(), AllocError>
    ensures { OnOk result (out.new.items ≡ out.old.items ++ (texts.node_line node ++ 10 ∷ [])) }
{
    match node {
        Node::Branch(candidate) => push_number(alloc, out, b"B", candidate as u128),
        Node::Bounded(set) => push_number(alloc, out, b"L", set as u128),
        Node::Overfull => out.extend_from_slice(b"X\n"),
    }
}

/// Adds the lines of nodes.
pub(crate) fn push_nodes(alloc: Global, out: &mut Vec<u8>, nodes: &[Node]) -> Result<(), AllocError>
    ensures { OnOk result (out.new.items ≡ out.old.items ++ writing.nodes_text nodes.now) }
{
    'nodes: for at in 0..nodes.len() {
        push_node(alloc, out, nodes[at])?;
    }
    Ok(())
}
