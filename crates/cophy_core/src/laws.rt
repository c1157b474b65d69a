//! Laws of answers, each proved of all files.
ghost use Rattle.cophy_core.specs.Laws.{RefusalsStandAlone, ChecksStandAlone, RuledChecksStandAlone, RuledAreAccepted, SweptAreAccepted};

use crate::commands::check::checks_have_one_answer;
use certificate::{texts_are_one, written_certificates_fit};
use gap_checker::{best_answers_are_proved, faults_exclude_proofs};

/// A command that is refused over its files has no other refusal and no other answer.
pub fn refusals_stand_alone()
    ensures { RefusalsStandAlone }
{}

/// `check` has one answer over its files, and so has `check-ruled`.
pub fn checks_stand_alone()
    ensures check { ChecksStandAlone }
    ensures ruled { RuledChecksStandAlone }
{
    checks_have_one_answer();
}

/// `check-ruled` accepts the certificate of advice under rules, and answers nothing else, where the files are told and the
/// certificate took the place of none of those that were read.
pub fn ruled_certificates_are_accepted()
    ensures { RuledAreAccepted }
{
    written_certificates_fit();
    texts_are_one();
    best_answers_are_proved();
    faults_exclude_proofs();
    checks_stand_alone();
}

/// `check` accepts the certificate of each point of a sweep, and answers nothing else, where the files are told and no certificate
/// took the place of one of those that were read.
pub fn swept_certificates_are_accepted()
    ensures { SweptAreAccepted }
{
    written_certificates_fit();
    texts_are_one();
    best_answers_are_proved();
    faults_exclude_proofs();
    checks_stand_alone();
}
