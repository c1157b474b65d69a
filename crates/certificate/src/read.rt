//! From a text to a certificate.
ghost use Rattle.std.specs.Prelude.{◌≡◌, ◌∷◌, ◌++◌, [], OnOk, IfOk, IfErr};
ghost use Rattle.certificate.specs.Certificates as certificates;
ghost use Rattle.certificate.specs.inner.Drafts as drafts;
ghost use Rattle.certificate.specs.inner.Outlines as outlines;
ghost use Rattle.certificate.specs.inner.Steps as steps;

use crate::cert::{Cert, CertFault};
use crate::outline::Outline;
use crate::stage::Taken;
use adv_base::{List, NoMemory, first_line};
use bip_model::Node;
use std::alloc::Global;

/// Puts a node at the end.
fn put_node(nodes: &mut List<Node>, node: Node) -> Result<(), NoMemory>
    ensures { OnOk result (nodes.new ≡ nodes.old ++ node ∷ []) }
{
    nodes.items.push(node).map_err(|_| NoMemory)
}

/// Takes the next line, whose node, if it has one, goes behind the tree so far; false where no certificate goes on with it.
fn take_line(
    alloc: Global,
    outline: &mut Outline,
    tree: &mut List<Node>,
    line: &[u8],
) -> Result<bool, NoMemory>
    requires { drafts.OutlineFits outline.old }
    ensures { IfOk result (λ fits. steps.Reads fits (outlines.with_tree outline.old tree.old) line.now (outlines.with_tree outline.new tree.new)) }
{
    match outline.take(alloc, line)? {
        Taken::Refused => Ok(false),
        Taken::Line => Ok(true),
        Taken::Node(node) => {
            put_node(tree, node)?;
            Ok(true)
        }
    }
}

/// The certificate whose lines were all taken.
fn into_cert(outline: Outline, tree: List<Node>) -> Cert
    ensures { result ≡ drafts.cert_of (outlines.with_tree outline tree) }
{
    Cert {
        version: outline.version,
        budget: outline.budget,
        config: outline.config,
        cost: outline.cost,
        bound: outline.bound,
        sets: outline.sets,
        tree,
    }
}

/// The certificate of a text. `Malformed` has the first line, from 1, at which no certificate goes on: up to the line
/// before some certificate's text begins so, and with it none does; a last line without a line feed is such a line, and so
/// is the end of the text before its certificate's. Time is linear in the bytes.
pub fn read_cert(alloc: Global, bytes: &[u8]) -> Result<Cert, CertFault>
    ensures found { IfOk result (certificates.IsCertificate bytes.now) }
    ensures fault { IfErr result (certificates.Faults bytes.now) }
{
    let mut outline = Outline::new(alloc);
    let mut tree = List::new(alloc);
    let mut rest = bytes;
    let mut number: u64 = 1;
    'lines: while let Some((line, more)) = first_line(rest) {
        let fits = match take_line(alloc, &mut outline, &mut tree, line) {
            Err(_) => return Err(CertFault::Memory),
            Ok(fits) => fits,
        };
        if !fits {
            return Err(CertFault::Malformed(number));
        }
        rest = more;
        number += 1;
    }
    if !rest.is_empty() {
        return Err(CertFault::Malformed(number));
    }
    if !outline.is_done() {
        return Err(CertFault::Malformed(number));
    }
    Ok(into_cert(outline, tree))
}
