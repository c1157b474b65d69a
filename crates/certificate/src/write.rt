//! From an answer to a certificate's text.
ghost use Rattle.std.specs.Prelude.{◌≡◌, ◌≤◌, ◌++◌, OnOk, IfOk, length};
ghost use Rattle.certificate.specs.Answers as answers;
ghost use Rattle.certificate.specs.Certificates as certificates;
ghost use Rattle.certificate.specs.Texts as texts;

use crate::lines::{push_bound, push_config, push_nodes, push_number};
use crate::sets::push_sets;
use adv_base::limits::MOST_CANDIDATES;
use adv_base::{Bytes, Config, NoMemory};
use bip_model::{Answer, Programme};
use std::alloc::{AllocError, Global};

/// Adds the lines before those of the sets.
fn push_head(
    alloc: Global,
    out: &mut Vec<u8>,
    version: u8,
    budget: u64,
    answer: &Answer,
) -> Result<(), AllocError>
    ensures { OnOk result (out.new.items ≡ out.old.items
        ++ texts.text_of (texts.head_lines version budget (answers.numbers_from 1 answer.now.config.on) answer.now.cost answer.now.bound (length answer.now.sets))) }
{
    push_number(alloc, out, b"cophy certificate", version as u128)?;
    push_number(alloc, out, b"budget", budget as u128)?;
    push_config(alloc, out, &answer.config)?;
    push_number(alloc, out, b"cost", answer.cost)?;
    push_bound(alloc, out, answer.bound)?;
    push_number(alloc, out, b"sets", answer.sets.len() as u128)?;
    Ok(())
}

/// A configuration has a flag for each candidate that there may be.
fn has_all_flags(config: &Config)
    ensures { length config.now.on ≡ MOST_CANDIDATES }
{
    let _flags = config.on;
}

/// The text of the certificate of an answer, in a version of the format: the budget, in pages, and the answer's
/// configuration, cost, bound, sets of multipliers, without the rents that are 0, and tree. `read_cert` reads it as that
/// certificate. The programme's parts and grants are in order, as those of a programme that stands for a setting are. Want of
/// memory is the one error; memory is taken for the text and for the digits of one number at a time, and time is linear in
/// the text and in the rents.
pub fn write_cert(
    alloc: Global,
    prog: &Programme,
    version: u8,
    budget: u64,
    answer: &Answer,
) -> Result<Bytes, NoMemory>
    requires some_version { 1 ≤ version }
    requires version { version ≤ 2 }
    requires limits { answers.AnswerLimits prog.now budget answer.now }
    requires order { answers.InOrder prog.now }
    ensures { IfOk result (λ bytes. certificates.IsCertificate bytes (answers.answer_cert prog.now version budget answer.now)) }
{
    has_all_flags(&answer.config);
    let mut out = Vec::new(alloc);
    push_head(alloc, &mut out, version, budget, answer)?;
    push_sets(alloc, &mut out, prog, answer.sets.as_slice())?;
    push_number(alloc, &mut out, b"tree", answer.tree.len() as u128)?;
    push_nodes(alloc, &mut out, answer.tree.as_slice())?;
    out.extend_from_slice(b"end\n")?;
    Ok(Bytes { items: out })
}
