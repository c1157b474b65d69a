//! The texts of what a check of a certificate answers.
ghost use Rattle.std.specs.Prelude.{◌≡◌, ◌++◌, ◌∷◌, [], OnOk, codes};
ghost use Rattle.report.specs.Texts.{bound_words, proved_words, checked_text, check_fault, not_proved};
ghost use Rattle.report.specs.Words.{line, numbered, signed};

use crate::NotProved;
use crate::usage::{push_both, push_numbered, push_signed};
use gap_checker::{CheckFault, Checked};
use std::alloc::{AllocError, Global};

/// Adds the bound and the budget that are told.
#[tactic(auto, unfolding(crate::specs::Texts::bound_words))]
fn push_bound(alloc: Global, out: &mut Vec<u8>, checked: &Checked) -> Result<(), AllocError>
    ensures { OnOk result (out.new.items ≡ out.old.items ++ bound_words checked.now.bound checked.now.budget) }
{
    push_signed(alloc, out, b" bound ", checked.bound)?;
    push_numbered(alloc, out, b" budget ", checked.budget as u128)
}

/// Adds what a certificate proves.
fn push_proved(alloc: Global, out: &mut Vec<u8>, checked: &Checked) -> Result<(), AllocError>
    ensures { OnOk result (out.new.items ≡ out.old.items ++ proved_words checked.now) }
{
    push_numbered(alloc, out, b"proved cost ", checked.cost)?;
    push_bound(alloc, out, checked)
}

/// Adds the line of what a certificate proves.
pub(crate) fn push_checked(
    alloc: Global,
    out: &mut Vec<u8>,
    checked: &Checked,
) -> Result<(), AllocError>
    ensures { OnOk result (out.new.items ≡ out.old.items ++ checked_text checked.now) }
{
    push_proved(alloc, out, checked)?;
    push_end(out)
}

/// Adds that an entry of a set names no use of a candidate.
fn push_bad_pair(alloc: Global, out: &mut Vec<u8>, set: u8, entry: u32) -> Result<(), AllocError>
    ensures { OnOk result (out.new.items ≡ out.old.items
        ++ ((numbered (codes "set ") set ++ numbered (codes " entry ") entry) ++ codes " names no pair")) }
{
    push_both(alloc, out, b"set ", set as u128, b" entry ", entry as u128)?;
    out.extend_from_slice(b" names no pair")
}

/// Adds that a leaf is below the bound.
fn push_leaf(
    alloc: Global,
    out: &mut Vec<u8>,
    node: u32,
    computed: i128,
    claimed: i128,
) -> Result<(), AllocError>
    ensures { OnOk result (out.new.items ≡ out.old.items
        ++ (numbered (codes "leaf ") node ++ (signed (codes " has ") computed ++ signed (codes " below ") claimed))) }
{
    push_numbered(alloc, out, b"leaf ", node as u128)?;
    push_signed(alloc, out, b" has ", computed)?;
    push_signed(alloc, out, b" below ", claimed)
}

/// Adds which candidates are clustered on one table.
fn push_clash(alloc: Global, out: &mut Vec<u8>, first: u16, second: u16) -> Result<(), AllocError>
    ensures { OnOk result (out.new.items ≡ out.old.items
        ++ ((numbered (codes "candidates ") first ++ numbered (codes " and ") second) ++ codes " clash")) }
{
    push_both(
        alloc,
        out,
        b"candidates ",
        first as u128,
        b" and ",
        second as u128,
    )?;
    out.extend_from_slice(b" clash")
}

/// Adds a fault of a certificate as a proof.
fn push_check_fault(alloc: Global, out: &mut Vec<u8>, fault: CheckFault) -> Result<(), AllocError>
    ensures { OnOk result (out.new.items ≡ out.old.items ++ check_fault fault) }
{
    match fault {
        CheckFault::Memory => Ok(()),
        CheckFault::BadConfig(number) => {
            push_numbered(alloc, out, b"no candidate ", number as u128)
        }
        CheckFault::OverBudget(size, budget) => {
            push_both(alloc, out, b"size ", size, b" over ", budget as u128)
        }
        CheckFault::CostDiffers(claimed, computed) => {
            push_both(alloc, out, b"cost ", claimed, b" computed ", computed)
        }
        CheckFault::BadPair(set, entry) => push_bad_pair(alloc, out, set, entry),
        CheckFault::BadBranch(node) => {
            push_numbered(alloc, out, b"branch at node ", node as u128)
        }
        CheckFault::LeafBelow(node, computed, claimed) => {
            push_leaf(alloc, out, node, computed, claimed)
        }
        CheckFault::NotInfeasible(node, size) => {
            push_both(alloc, out, b"leaf ", node as u128, b" has size ", size)
        }
        CheckFault::Clash(first, second) => push_clash(alloc, out, first, second),
    }
}

/// Adds at which candidate a configuration goes against the rules.
fn push_disobeying(alloc: Global, out: &mut Vec<u8>, number: u16) -> Result<(), AllocError>
    ensures { OnOk result (out.new.items ≡ out.old.items ++ (numbered (codes "candidate ") number ++ codes " breaks a rule")) }
{
    push_numbered(alloc, out, b"candidate ", number as u128)?;
    out.extend_from_slice(b" breaks a rule")
}

/// Adds why a certificate proves nothing.
fn push_not_proved(alloc: Global, out: &mut Vec<u8>, why: NotProved) -> Result<(), AllocError>
    ensures { OnOk result (out.new.items ≡ out.old.items ++ not_proved why) }
{
    match why {
        NotProved::Malformed(number) => {
            push_numbered(alloc, out, b"malformed at line ", number as u128)
        }
        NotProved::Disobeys(number) => push_disobeying(alloc, out, number),
        NotProved::Fault(fault) => push_check_fault(alloc, out, fault),
    }
}

/// Ends a line.
fn push_end(out: &mut Vec<u8>) -> Result<(), AllocError>
    ensures { OnOk result (out.new.items ≡ out.old.items ++ 10 ∷ []) }
{
    out.extend_from_slice(b"\n")
}

/// Adds words and why a certificate proves nothing.
fn push_why(
    alloc: Global,
    out: &mut Vec<u8>,
    words: &[u8],
    why: NotProved,
) -> Result<(), AllocError>
    ensures { OnOk result (out.new.items ≡ out.old.items ++ (words.now ++ not_proved why)) }
{
    out.extend_from_slice(words)?;
    push_not_proved(alloc, out, why)
}

/// Adds the line of a certificate that proves nothing.
pub(crate) fn push_unproved(
    alloc: Global,
    out: &mut Vec<u8>,
    why: NotProved,
) -> Result<(), AllocError>
    ensures { OnOk result (out.new.items ≡ out.old.items ++ line (codes "not proved: " ++ not_proved why)) }
{
    push_why(alloc, out, b"not proved: ", why)?;
    push_end(out)
}
