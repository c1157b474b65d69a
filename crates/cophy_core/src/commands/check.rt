//! `check`: what a certificate proves.
ghost use Rattle.std.specs.Prelude.{◌≡◌, ◌≤◌, ℕ, List, IfOk, IfErr, Some};
ghost use Rattle.adv_base.specs.Settings.{the_setting};
ghost use Rattle.adv_base.specs.declared.limits.TheConstants.{MOST_CERTIFICATE_BYTES};
ghost use Rattle.bip_model.specs.Views.{node_of};
ghost use Rattle.certificate.specs.Heads.{IsHeadOf};
ghost use Rattle.certificate.specs.Scanners.{StandsFor};
ghost use Rattle.report.specs.Texts.{FitsSetting};
ghost use Rattle.cophy_core.specs.Causes.{IsBounded};
ghost use Rattle.cophy_core.specs.Files.{counts, input_file, SomeInput};
ghost use Rattle.cophy_core.specs.Reading.{IsUnreadFile};
ghost use Rattle.cophy_core.specs.commands.Check as spec;
ghost use Rattle.cophy_core.specs.commands.CheckRuled as check_ruled;

use crate::files::FileUse;
use crate::stop::Stop;
use adv_base::Setting;
use adv_shelf::Shelf;
use bip_model::{Fix, shown_bounds};
use certificate::{
    CertFault, Head, Scanner, breaks_are_one, heads_keep_limits, texts_are_one,
    written_certificates_fit,
};
use dba_rules::{broken, one_answer};
use gap_checker::{AtFault, answers_are_alike, answers_are_one, check_at, config_with};
use report::{Done, NotProved};
use std::alloc::Global;

/// What the certificate of a head proves of a setting below a root, or its first fault. Its tree is read from the file, which
/// is the second reading.
fn judged<S: Shelf>(
    alloc: Global,
    setting: &Setting<'_>,
    root: &Fix,
    shelf: &mut S,
    file: &FileUse<'_>,
    head: &Head,
) -> Result<Done, Stop>
    requires most { MOST_CERTIFICATE_BYTES ≤ file.now.most }
    requires read { SomeInput (S.files shelf.old) (input_file file.now.role file.now.name.now file.now.most) (λ bytes. IsHeadOf bytes head.now) }
    ensures gives { IfOk result (λ done. SomeInput (S.files shelf.old) (input_file file.now.role file.now.name.now file.now.most)
        (λ bytes. spec.GivesBelow (node_of root.now) bytes (the_setting setting.now) done)) }
    ensures fits { IfOk result (FitsSetting (Some (the_setting setting.now))) }
    ensures bound { IfOk result IsBounded }
    ensures stop { IfErr result (IsUnreadFile (S.files shelf.old) (counts (S.read_faults shelf.old) (S.read_faults_at shelf.old))
        (counts (S.read_faults shelf.new) (S.read_faults_at shelf.new)) (input_file file.now.role file.now.name.now file.now.most)) }

    ensures files { S.files shelf.new ≡ S.files shelf.old }
    ensures counts { S.read_faults shelf.old ≤ S.read_faults shelf.new }
    ensures counts_at { (n : List ℕ) → S.read_faults_at shelf.old n ≤ S.read_faults_at shelf.new n }
    ensures puts { S.put_faults shelf.new ≡ S.put_faults shelf.old }
{
    written_certificates_fit();
    heads_keep_limits();
    answers_are_alike();
    shown_bounds();
    let config = config_with(head.config.as_slice());
    if let Some(number) = broken(root, &config) {
        return Ok(Done::NotProved(NotProved::Disobeys(number)));
    }
    match check_at(alloc, setting, root, shelf, file.name, head) {
        Ok(checked) => Ok(Done::Checked(checked)),
        Err(AtFault::Memory) => Err(Stop::Memory),
        Err(AtFault::Failed) => Err(Stop::Failed(file.role)),
        Err(AtFault::Malformed(line)) => Ok(Done::NotProved(NotProved::Malformed(line))),
        Err(AtFault::Fault(fault)) => Ok(Done::NotProved(NotProved::Fault(fault))),
    }
}

/// What the certificate in a file, which a scanner was handed, proves of a setting below a root, found through the planner
/// alone: what its configuration costs, which is below the root, and that no configuration within its budget that is below
/// the root costs less than its bound. Or why the file proves nothing: the first line at which its bytes are no
/// certificate's, the first candidate at which its configuration isn't below the root, or the first fault of the
/// certificate. The tree is read once more, and not kept.
pub(crate) fn check_below<S: Shelf>(
    alloc: Global,
    setting: &Setting<'_>,
    root: &Fix,
    shelf: &mut S,
    file: &FileUse<'_>,
    scanner: Scanner,
) -> Result<Done, Stop>
    requires most { MOST_CERTIFICATE_BYTES ≤ file.now.most }
    requires read { SomeInput (S.files shelf.old) (input_file file.now.role file.now.name.now file.now.most) (StandsFor scanner) }
    ensures gives { IfOk result (λ done. SomeInput (S.files shelf.old) (input_file file.now.role file.now.name.now file.now.most)
        (λ bytes. spec.GivesBelow (node_of root.now) bytes (the_setting setting.now) done)) }
    ensures fits { IfOk result (FitsSetting (Some (the_setting setting.now))) }
    ensures bound { IfOk result IsBounded }
    ensures stop { IfErr result (IsUnreadFile (S.files shelf.old) (counts (S.read_faults shelf.old) (S.read_faults_at shelf.old))
        (counts (S.read_faults shelf.new) (S.read_faults_at shelf.new)) (input_file file.now.role file.now.name.now file.now.most)) }

    ensures files { S.files shelf.new ≡ S.files shelf.old }
    ensures counts { S.read_faults shelf.old ≤ S.read_faults shelf.new }
    ensures counts_at { (n : List ℕ) → S.read_faults_at shelf.old n ≤ S.read_faults_at shelf.new n }
    ensures puts { S.put_faults shelf.new ≡ S.put_faults shelf.old }
{
    match scanner.end() {
        Ok(head) => judged(alloc, setting, root, shelf, file, &head),
        Err(CertFault::Memory) => Err(Stop::Memory),
        Err(CertFault::Malformed(line)) => Ok(Done::NotProved(NotProved::Malformed(line))),
    }
}

/// What the certificate in a file, which a scanner was handed, proves of a setting, or why it proves nothing: each
/// configuration is below the root from which `check` starts.
pub(crate) fn check<S: Shelf>(
    alloc: Global,
    setting: &Setting<'_>,
    shelf: &mut S,
    file: &FileUse<'_>,
    scanner: Scanner,
) -> Result<Done, Stop>
    requires most { MOST_CERTIFICATE_BYTES ≤ file.now.most }
    requires read { SomeInput (S.files shelf.old) (input_file file.now.role file.now.name.now file.now.most) (StandsFor scanner) }
    ensures gives { IfOk result (λ done. SomeInput (S.files shelf.old) (input_file file.now.role file.now.name.now file.now.most)
        (λ bytes. spec.Gives bytes (the_setting setting.now) done)) }
    ensures fits { IfOk result (FitsSetting (Some (the_setting setting.now))) }
    ensures bound { IfOk result IsBounded }
    ensures stop { IfErr result (IsUnreadFile (S.files shelf.old) (counts (S.read_faults shelf.old) (S.read_faults_at shelf.old))
        (counts (S.read_faults shelf.new) (S.read_faults_at shelf.new)) (input_file file.now.role file.now.name.now file.now.most)) }

    ensures files { S.files shelf.new ≡ S.files shelf.old }
    ensures counts { S.read_faults shelf.old ≤ S.read_faults shelf.new }
    ensures counts_at { (n : List ℕ) → S.read_faults_at shelf.old n ≤ S.read_faults_at shelf.new n }
    ensures puts { S.put_faults shelf.new ≡ S.put_faults shelf.old }
{
    let root = Fix::free();
    check_below(alloc, setting, &root, shelf, file, scanner)
}

/// `check` has one answer to the bytes of a file and a setting: what they prove, or the first line at which they are no
/// certificate's, or the one fault of the certificate; all that is told with it is determined too. So has `check-ruled`, to
/// rules as well.
pub fn checks_have_one_answer()
    ensures check { spec.OneAnswer }
    ensures ruled { check_ruled.OneAnswer }
{
    texts_are_one();
    breaks_are_one();
    answers_are_one();
    one_answer();
}
