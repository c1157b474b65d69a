//! `check-ruled`: what a certificate proves under an administrator's rules.
ghost use Rattle.std.specs.Prelude.{◌≡◌, ◌≤◌, ℕ, List, IfOk, IfErr, Some, length};
ghost use Rattle.adv_base.specs.Settings.{the_setting};
ghost use Rattle.adv_base.specs.declared.limits.TheConstants.{MOST_CERTIFICATE_BYTES, MOST_FILE_BYTES};
ghost use Rattle.certificate.specs.Scanners.{StandsFor};
ghost use Rattle.report.specs.Texts.{FitsSetting};
ghost use Rattle.cophy_core.specs.Causes.{IsBounded};
ghost use Rattle.cophy_core.specs.Files.{counts, input_file, SomeInput};
ghost use Rattle.cophy_core.specs.inner.Work.{StopsUnderRules};
ghost use Rattle.cophy_core.specs.commands.CheckRuled as spec;

use crate::commands::check::check_below;
use crate::files::FileUse;
use crate::stop::Stop;
use adv_base::Setting;
use adv_shelf::Shelf;
use certificate::Scanner;
use dba_rules::read_rules;
use report::Done;
use std::alloc::Global;

/// What the certificate in a file, which a scanner was handed, proves of a setting below the root that rules make, or why it
/// proves nothing there. Or the first fault of the rules.
pub(crate) fn check_ruled<S: Shelf>(
    alloc: Global,
    setting: &Setting<'_>,
    rules: &[u8],
    shelf: &mut S,
    file: &FileUse<'_>,
    scanner: Scanner,
) -> Result<Done, Stop>
    requires rules { length rules.now ≤ MOST_FILE_BYTES }
    requires most { MOST_CERTIFICATE_BYTES ≤ file.now.most }
    requires read { SomeInput (S.files shelf.old) (input_file file.now.role file.now.name.now file.now.most) (StandsFor scanner) }
    ensures gives { IfOk result (λ done. SomeInput (S.files shelf.old) (input_file file.now.role file.now.name.now file.now.most)
        (λ bytes. spec.Gives rules.now bytes (the_setting setting.now) done)) }
    ensures fits { IfOk result (FitsSetting (Some (the_setting setting.now))) }
    ensures bound { IfOk result IsBounded }
    ensures stop { IfErr result (StopsUnderRules (S.files shelf.old) (input_file file.now.role file.now.name.now file.now.most)
        (counts (S.read_faults shelf.old) (S.read_faults_at shelf.old))
        (counts (S.read_faults shelf.new) (S.read_faults_at shelf.new)) rules.now (the_setting setting.now)) }

    ensures files { S.files shelf.new ≡ S.files shelf.old }
    ensures counts { S.read_faults shelf.old ≤ S.read_faults shelf.new }
    ensures counts_at { (n : List ℕ) → S.read_faults_at shelf.old n ≤ S.read_faults_at shelf.new n }
    ensures puts { S.put_faults shelf.new ≡ S.put_faults shelf.old }
{
    let root = read_rules(alloc, setting, rules)?;
    check_below(alloc, setting, &root, shelf, file, scanner)
}
