//! The parts of a certificate's text, and what its lines are.
ghost use Rattle.std.specs.Prelude.{◌≡◌, true, false};

use bip_model::Node;

/// Which part of a certificate the next line belongs to.
#[derive(Clone, Copy, Debug, PartialEq, Eq)]
pub(crate) enum Stage {
    Title,
    Budget,
    Config,
    Cost,
    Bound,
    Sets,
    Body,
    Nodes,
    Done,
}

/// What a line says beside the outline.
#[derive(Clone, Copy)]
pub(crate) enum Taken {
    /// No certificate goes on with it.
    Refused,
    /// Nothing.
    Line,
    /// A node of the tree.
    Node(Node),
}

impl Taken {
    ghost use Rattle.certificate.specs.declared.stage.Taken.TheVariants as takes;

    /// Whether no certificate goes on with the line.
    pub(crate) fn is_refused(self) -> bool
        ensures refused { result ≡ true → self ≡ takes.Refused }
        ensures taken { result ≡ false → self ≡ takes.Refused → ⊥ }
    {
        match self {
            Taken::Refused => true,
            Taken::Line | Taken::Node(_) => false,
        }
    }
}
