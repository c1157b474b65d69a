//! Certificates of advice, as values and as text.
//!
//! A certificate has what a search answered: the space budget, the chosen candidates, what the workload costs under them,
//! a bound that no fitting configuration undercuts, and the multipliers and the tree that show it. The first line of its text
//! has the version of the format, 1 or 2; all else of the text is the same in both, and only what a leaf `X` claims differs:
//! in version 1 that the pages of its in-candidates exceed the budget, in version 2 that these don't fit. `read_cert` gives
//! the certificate of a text, or the first line at which no certificate goes on; `write_cert` gives the text of an answer's.
//! `specs/Texts.antt` has the text, `specs/Limits.antt` what a certificate keeps, `specs/Certificates.antt` which bytes are
//! a certificate's and at which line others break, `specs/Answers.antt` the certificate of an answer. Whether a certificate
//! proves its bound is left to others.
//!
//! A `Scanner` reads a text that is handed to it in pieces, and gives the certificate's `Head`, which has no tree, and says
//! where that stands; `node_line` reads one of its lines.
//!
//! A `Cert` has `SparseSet`s of `Entry`s and a tree of `bip_model`'s `Node`s; a `CertFault` says why a text isn't read.
//!
//! ```rust
//! let text =
//!     "cophy certificate 1\nbudget 4\nconfig 2\ncost 954000\nbound 954000\nsets 0\ntree 3\nB 1\nL 0\nL 0\nend\n";
//! let cert = read_cert(alloc, text.as_bytes())?;
//! assert_eq!(rt; cert.config.as_slice(), [2u16].as_slice());
//! assert_eq!(rt; (cert.cost, cert.bound), (954000, 954000));
//! let tree = [Node::Branch(1), Node::Bounded(0), Node::Bounded(0)];
//! assert_eq!(rt; cert.tree.as_slice(), tree.as_slice());
//! assert_eq!(rt; read_cert(alloc, b"cophy\n").err(), Some(CertFault::Malformed(1)));
//! ```
#![tactic(auto)]

mod cert;
mod counts;
mod forms;
mod head;
mod laws;
mod lines;
mod outline;
mod pieces;
mod read;
mod scanner;
mod sets;
mod stage;
mod state;
mod version;
mod words;
mod write;

pub use cert::{Cert, CertFault, Entry, SparseSet};
pub use forms::node_line;
pub use head::Head;
pub use laws::{
    best_answers_keep_limits, breaks_are_one, heads_keep_limits, places_in_order,
    standing_programmes_are_in_order, texts_are_one, whole_trees_are_preorders,
    written_certificates_fit,
};
pub use read::read_cert;
pub use scanner::Scanner;
pub use version::version_of;
pub use write::write_cert;
