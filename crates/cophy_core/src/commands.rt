//! What each command reads, and what it works out, a file a command.
ghost use Rattle.std.specs.Prelude.{◌≡◌, ◌≤◌, ℕ, List, length, None, Some, IfOk, IfErr, option_map};
ghost use Rattle.adv_base.specs.declared.limits.TheConstants.{MOST_FILE_BYTES};
ghost use Rattle.adv_base.specs.Settings.{the_setting};
ghost use Rattle.candidates.specs.Candidates.{AreCandidates};
ghost use Rattle.candidates.specs.Growing.{IsProposed};
ghost use Rattle.command_line.specs.CommandLine.{plain_command};
ghost use Rattle.command_line.specs.Spellings.{IsInRange};
ghost use Rattle.report.specs.Texts.{FitsSetting};
ghost use Rattle.cophy_core.specs.Causes.{IsBounded};
ghost use Rattle.cophy_core.specs.Endings.{plain_puts};
ghost use Rattle.cophy_core.specs.Files.{counts, input, input_file};
ghost use Rattle.cophy_core.specs.Inputs.{HasWhole, HasScanned, HasRead};
ghost use Rattle.cophy_core.specs.Reading.{StopsReading, StopsAtFiles};
ghost use Rattle.cophy_core.specs.Settings.{IsSetting, AreStatementsOf};
ghost use Rattle.cophy_core.specs.Stops.{StopsAt};
ghost use Rattle.cophy_core.specs.commands as meaning;
ghost use Rattle.cophy_core.specs.inner.Work.{GivesRead, StopsWork};

pub(crate) mod advise;
pub(crate) mod bench;
pub(crate) mod check;
pub(crate) mod check_ruled;
pub(crate) mod cost;
pub(crate) mod explain;
pub(crate) mod fold;
pub(crate) mod list_candidates;
pub(crate) mod remembered;
pub(crate) mod retune_workload;
pub(crate) mod ruled;
pub(crate) mod session;
pub(crate) mod sweep;
pub(crate) mod what_if;

use crate::files::{
    FileUse, Inputs, bytes_at, certificate_file, read_each, scan_file, setting_files, three_files,
};
use crate::made::made_inputs;
use crate::stop::Stop;
use crate::worked::Worked;
use adv_base::{Bytes, List, Setting};
use adv_shelf::Shelf;
use candidates::Proposed;
use certificate::Scanner;
use command_line::Command;
use report::Role;
use std::alloc::Global;

/// The bytes of the files that a command reads whole, in the order in which it names them; for `bench`, which reads none,
/// those that are made.
fn whole_of<S: Shelf>(
    alloc: Global,
    shelf: &mut S,
    command: &Command<'_>,
) -> Result<List<Bytes>, Stop>
    requires { IsInRange (plain_command command.now) }
    ensures whole { IfOk result (HasWhole (S.files shelf.old) (plain_command command.now)) }
    ensures stop { IfErr result (StopsReading (S.files shelf.old) (meaning.whole_files (plain_command command.now))
        (counts (S.read_faults shelf.old) (S.read_faults_at shelf.old)) (counts (S.read_faults shelf.new) (S.read_faults_at shelf.new))) }

    ensures files { S.files shelf.new ≡ S.files shelf.old }
    ensures counts { S.read_faults shelf.old ≤ S.read_faults shelf.new }
    ensures counts_at { (n : List ℕ) → S.read_faults_at shelf.old n ≤ S.read_faults_at shelf.new n }
    ensures puts { S.put_faults shelf.new ≡ S.put_faults shelf.old }
{
    match *command {
        Command::Candidates { cat, load }
        | Command::Cost { cat, load }
        | Command::Advise { cat, load, .. }
        | Command::Sweep { cat, load, .. }
        | Command::Check { cat, load, .. }
        | Command::Fold { cat, load, .. } => read_each(alloc, shelf, &setting_files(cat, load)),
        Command::WhatIf {
            cat,
            load,
            conf: third,
        }
        | Command::Explain {
            cat,
            load,
            conf: third,
            ..
        }
        | Command::Ruled {
            cat,
            load,
            rules: third,
            ..
        }
        | Command::Retune {
            cat,
            load,
            edits: third,
            ..
        }
        | Command::CheckRuled {
            cat,
            load,
            rules: third,
            ..
        } => read_each(alloc, shelf, &three_files(cat, load, third)),
        Command::Bench {
            seed,
            tables,
            statements,
            ..
        } => Ok(made_inputs(alloc, seed, tables, statements)?),
    }
}

/// The certificate that a command reads behind them, piece by piece.
fn certificate_of<'a>(command: &Command<'a>) -> Option<FileUse<'a>>
    ensures { option_map (λ file. input_file file.role file.name.now file.most) result ≡ meaning.certificate_of (plain_command command.now) }
{
    match *command {
        Command::Check { cert, .. } => Some(certificate_file(Role::Third, cert)),
        Command::CheckRuled { cert, .. } => Some(certificate_file(Role::Fourth, cert)),
        _ => None,
    }
}

/// What a command answers from, read in the order in which it names its files. A certificate is scanned, whatever it holds.
pub(crate) fn inputs_of<S: Shelf>(
    alloc: Global,
    shelf: &mut S,
    command: &Command<'_>,
) -> Result<Inputs, Stop>
    requires { IsInRange (plain_command command.now) }
    ensures inputs { IfOk result (HasRead (S.files shelf.old) (plain_command command.now)) }
    ensures stop { IfErr result (StopsAtFiles (plain_command command.now) (S.files shelf.old)
        (counts (S.read_faults shelf.old) (S.read_faults_at shelf.old)) (counts (S.read_faults shelf.new) (S.read_faults_at shelf.new))) }

    ensures files { S.files shelf.new ≡ S.files shelf.old }
    ensures counts { S.read_faults shelf.old ≤ S.read_faults shelf.new }
    ensures counts_at { (n : List ℕ) → S.read_faults_at shelf.old n ≤ S.read_faults_at shelf.new n }
    ensures puts { S.put_faults shelf.new ≡ S.put_faults shelf.old }
{
    let whole = whole_of(alloc, shelf, command)?;
    match certificate_of(command) {
        Some(file) => {
            let scanner = scan_file(alloc, shelf, &file)?;
            Ok(Inputs {
                whole,
                scanner: Some(scanner),
            })
        }
        None => Ok(Inputs {
            whole,
            scanner: None,
        }),
    }
}

/// What a command that reads no certificate gives over the files that were read for it and the setting of the first two, whose
/// workload proposes this, of which `left_over` indexes are no candidates, and the files that it puts for that.
fn over(
    alloc: Global,
    command: &Command<'_>,
    whole: &List<Bytes>,
    setting: &Setting<'_>,
    left_over: u64,
    proposed: Proposed,
) -> Result<Worked, Stop>
    requires range { IsInRange (plain_command command.now) }
    requires certificate { None ≡ meaning.certificate_of (plain_command command.now) }
    requires short { length (input whole.now 1) ≤ MOST_FILE_BYTES }
    requires third_short { length (input whole.now 2) ≤ MOST_FILE_BYTES }
    requires read { AreStatementsOf setting.now.cat.now (input whole.now 1) setting.now.statements.now }
    requires found { AreCandidates setting.now.cat.now setting.now.statements.now setting.now.shapes.now left_over }
    requires proposed { IsProposed setting.now.cat.now setting.now.statements.now proposed }
    ensures gives { IfOk result (λ worked. meaning.GivesOver (plain_command command.now) whole.now (the_setting setting.now) worked.done) }
    ensures puts { IfOk result (λ worked. meaning.PutsOver (plain_command command.now) whole.now (the_setting setting.now) worked.done (plain_puts worked.puts)) }
    ensures fits { IfOk result (λ worked. FitsSetting (Some (the_setting setting.now)) worked.done) }
    ensures bound { IfOk result (λ worked. IsBounded worked.done) }
    ensures stop { IfErr result (StopsAt (meaning.RefusesOver (plain_command command.now) whole.now (the_setting setting.now))) }
{
    let load = bytes_at(whole, 1);
    let third = bytes_at(whole, 2);
    match *command {
        Command::Cost { .. } => Ok(Worked::alone(alloc, cost::cost(alloc, setting)?)),
        Command::WhatIf { .. } => {
            let done = what_if::what_if(alloc, setting, third)?;
            Ok(Worked::alone(alloc, done))
        }
        Command::Explain { number, .. } => {
            let done = explain::explain(alloc, setting, third, number)?;
            Ok(Worked::alone(alloc, done))
        }
        Command::Candidates { .. } => {
            let done = list_candidates::list_candidates(alloc, setting, left_over)?;
            Ok(Worked::alone(alloc, done))
        }
        Command::Advise {
            budget,
            nodes,
            cert,
            ..
        } => advise::advise(alloc, setting, left_over, budget, nodes, cert),
        Command::Ruled {
            budget,
            nodes,
            cert,
            ..
        } => ruled::ruled(alloc, setting, left_over, third, budget, nodes, cert),
        Command::Sweep {
            first,
            step,
            count,
            nodes,
            cert,
            ..
        } => sweep::sweep(alloc, setting, first, step, count, nodes, cert),
        Command::Retune { budget, nodes, .. } => {
            let done = retune_workload::retune_workload(
                alloc, setting, proposed, load, third, budget, nodes,
            )?;
            Ok(Worked::alone(alloc, done))
        }
        Command::Fold { out, .. } => fold::fold(alloc, setting, load, out),
        Command::Bench { budget, .. } => {
            let done = bench::bench(alloc, setting, left_over, budget)?;
            Ok(Worked::alone(alloc, done))
        }
        Command::Check { .. } | Command::CheckRuled { .. } => unreachable!(),
    }
}

/// What a check of a certificate, which that scanner was handed, gives over the files that were read for it and the setting of
/// the first two.
fn checked<S: Shelf>(
    alloc: Global,
    shelf: &mut S,
    command: &Command<'_>,
    whole: &List<Bytes>,
    setting: &Setting<'_>,
    scanner: Scanner,
) -> Result<Worked, Stop>
    requires scanned { HasScanned (S.files shelf.old) (meaning.certificate_of (plain_command command.now)) (Some scanner) }
    requires third_short { length (input whole.now 2) ≤ MOST_FILE_BYTES }
    ensures gives { IfOk result (λ worked. GivesRead (S.files shelf.old) (plain_command command.now) whole.now (the_setting setting.now) worked.done) }
    ensures puts { IfOk result (λ worked. meaning.PutsOver (plain_command command.now) whole.now (the_setting setting.now) worked.done (plain_puts worked.puts)) }
    ensures fits { IfOk result (λ worked. FitsSetting (Some (the_setting setting.now)) worked.done) }
    ensures bound { IfOk result (λ worked. IsBounded worked.done) }
    ensures stop { IfErr result (StopsWork (S.files shelf.old) (plain_command command.now) (counts (S.read_faults shelf.old) (S.read_faults_at shelf.old))
        (counts (S.read_faults shelf.new) (S.read_faults_at shelf.new)) whole.now (the_setting setting.now)) }

    ensures files { S.files shelf.new ≡ S.files shelf.old }
    ensures counts { S.read_faults shelf.old ≤ S.read_faults shelf.new }
    ensures counts_at { (n : List ℕ) → S.read_faults_at shelf.old n ≤ S.read_faults_at shelf.new n }
    ensures puts_kept { S.put_faults shelf.new ≡ S.put_faults shelf.old }
{
    match *command {
        Command::Check { cert, .. } => {
            let file = certificate_file(Role::Third, cert);
            let done = check::check(alloc, setting, shelf, &file, scanner)?;
            Ok(Worked::alone(alloc, done))
        }
        Command::CheckRuled { cert, .. } => {
            let file = certificate_file(Role::Fourth, cert);
            let rules = bytes_at(whole, 2);
            let done = check_ruled::check_ruled(alloc, setting, rules, shelf, &file, scanner)?;
            Ok(Worked::alone(alloc, done))
        }
        _ => unreachable!(),
    }
}

/// What a command gives over what was read for it and the setting of the first two files, whose workload proposes this, of which
/// `left_over` indexes are no candidates, and the files that it puts for that.
pub(crate) fn work<S: Shelf>(
    alloc: Global,
    shelf: &mut S,
    command: &Command<'_>,
    inputs: Inputs,
    setting: &Setting<'_>,
    left_over: u64,
    proposed: Proposed,
) -> Result<Worked, Stop>
    requires range { IsInRange (plain_command command.now) }
    requires read { HasRead (S.files shelf.old) (plain_command command.now) inputs }
    requires found { AreCandidates setting.now.cat.now setting.now.statements.now setting.now.shapes.now left_over }
    requires proposed { IsProposed setting.now.cat.now setting.now.statements.now proposed }
    requires opened { IsSetting (input inputs.whole 0) (input inputs.whole 1) (the_setting setting.now) left_over }
    ensures gives { IfOk result (λ worked. GivesRead (S.files shelf.old) (plain_command command.now) inputs.whole (the_setting setting.now) worked.done) }
    ensures puts { IfOk result (λ worked. meaning.PutsOver (plain_command command.now) inputs.whole (the_setting setting.now) worked.done (plain_puts worked.puts)) }
    ensures fits { IfOk result (λ worked. FitsSetting (Some (the_setting setting.now)) worked.done) }
    ensures bound { IfOk result (λ worked. IsBounded worked.done) }
    ensures stop { IfErr result (StopsWork (S.files shelf.old) (plain_command command.now) (counts (S.read_faults shelf.old) (S.read_faults_at shelf.old))
        (counts (S.read_faults shelf.new) (S.read_faults_at shelf.new)) inputs.whole (the_setting setting.now)) }

    ensures files { S.files shelf.new ≡ S.files shelf.old }
    ensures counts { S.read_faults shelf.old ≤ S.read_faults shelf.new }
    ensures counts_at { (n : List ℕ) → S.read_faults_at shelf.old n ≤ S.read_faults_at shelf.new n }
    ensures puts_kept { S.put_faults shelf.new ≡ S.put_faults shelf.old }
{
    let Inputs { whole, scanner } = inputs;
    match scanner {
        None => over(alloc, command, &whole, setting, left_over, proposed),
        Some(scanner) => checked(alloc, shelf, command, &whole, setting, scanner),
    }
}
