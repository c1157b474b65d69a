//! Laws of certificates.
ghost use Rattle.std.specs.Prelude.{◌↔◌, ◌<◌};
ghost use Rattle.certificate.specs.Answers as answers;
ghost use Rattle.certificate.specs.Certificates as certificates;
ghost use Rattle.certificate.specs.Heads as heads;
ghost use Rattle.certificate.specs.Limits as limits;
ghost use Rattle.certificate.specs.Order as order;
ghost use Rattle.certificate.specs.Trees as trees;
ghost use Rattle.certificate.specs.declared.cert.Entry as entries;

/// The places of entries stand in the order by statement, then slot, then candidate.
pub fn places_in_order()
    ensures { (d e : entries.Entry) → limits.EntryLimits d → limits.EntryLimits e → (limits.entry_place d < limits.entry_place e) ↔ order.IsBefore d e }
{}

/// A list of nodes is so many whole trees, one behind another, exactly where it is so many trees in preorder; so it is one
/// whole tree exactly where it is a tree in preorder, and that tree is the one whose list it is.
pub fn whole_trees_are_preorders()
    ensures many { trees.TreesArePreorders }
    ensures whole { trees.TreeIsPreorder }
    ensures once { trees.OneTree }
{}

/// A text is that of at most one certificate, and a certificate has one text.
pub fn texts_are_one()
    ensures certificate { certificates.OneCertificate }
    ensures text { certificates.OneText }
{}

/// Bytes that are no certificate's text break at one line: the first at which no certificate's text goes on.
pub fn breaks_are_one()
    ensures { certificates.OneBreak }
{}

/// The parts and grants of a programme that stands for a setting are in order.
pub fn standing_programmes_are_in_order()
    ensures { answers.StandingInOrder }
{}

/// The best answer of a search, with at most a million nodes and a space budget of at most 10^12 pages, keeps the limits
/// that `write_cert` asks for.
pub fn best_answers_keep_limits()
    ensures { answers.BestKeepLimits }
{}

/// The text of a certificate is never longer than the file of a certificate may be: 64 MiB.
pub fn written_certificates_fit()
    ensures { certificates.TextsFit }
{}

/// The head of a certificate keeps the limits of certificates, and its tree begins within the bytes that a text may have.
pub fn heads_keep_limits()
    ensures { heads.HeadsKeepLimits }
{}
