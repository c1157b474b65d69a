//! Laws of what a checker answers.
ghost use Rattle.gap_checker.specs.Laws.{FaultsExcludeProofs, AnswersAreOne, BestAreProved, ToldOfCertificates, AnswersAlike};

/// A certificate that proves its bound for a setting, below a root, has no fault there; want of memory alone says nothing of
/// it.
pub fn faults_exclude_proofs()
    ensures { FaultsExcludeProofs }
{}

/// A certificate has one answer for a setting and a root: two answers to all three are the same, but for want of memory.
pub fn answers_are_one()
    ensures { AnswersAreOne }
{}

/// The certificate of the best answer of a search from a root, in the version that the setting's candidates ask for, proves
/// its bound below that root, for the setting for which the programme stands: the rents that it lists are those of the
/// answer, and its numbers are those of the answer's configuration. From the root that leaves each candidate free `check`
/// accepts it.
pub fn best_answers_are_proved()
    ensures { BestAreProved }
{}

/// What `check_at` says of a head and of the text behind it is so of the certificate whose text that is: it answers as `check`
/// does, but for want of memory and reads that failed, and it doesn't answer `Malformed`.
pub fn answers_are_alike()
    ensures told { ToldOfCertificates }
    ensures alike { AnswersAlike }
{}
