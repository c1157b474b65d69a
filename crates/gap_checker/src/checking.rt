//! Checking a certificate, whole or with its tree read from a file.
ghost use Rattle.std.specs.Prelude.{◌≡◌, IfOk, IfErr, ◌≤◌, ℕ, List, IsErrOf, OnOk};
ghost use Rattle.adv_base.specs.Settings.{the_setting};
ghost use Rattle.adv_shelf.specs.Faults.{Rose};
ghost use Rattle.bip_model.specs.Laws.{BoundsAll};
ghost use Rattle.bip_model.specs.Proves.{free_node};
ghost use Rattle.bip_model.specs.Views.{node_of};
ghost use Rattle.certificate.specs.Limits.{CertLimits};
ghost use Rattle.gap_checker.specs.At as at;
ghost use Rattle.gap_checker.specs.Faults as faults;
ghost use Rattle.gap_checker.specs.Views as views;
ghost use Rattle.gap_checker.specs.inner.Judges as judges;
ghost use Rattle.gap_checker.specs.inner.Memos.{IsMemo};
ghost use Rattle.gap_checker.specs.inner.Readings as readings;

use crate::claims::Claims;
use crate::fault::{AtFault, CheckFault, Checked};
use crate::judge::Judge;
use crate::memo::Memo;
use crate::part::parts_of;
use crate::tree_reader::TreeReader;
use adv_base::Setting;
use adv_shelf::Shelf;
use bip_model::Fix;
use certificate::{Cert, Head};
use hypo_indexes::Figures;
use std::alloc::Global;

/// Judges a certificate for a setting, through the planner alone. Ok comes exactly where the certificate is a proof: its
/// configuration has candidates alone, fits the budget and costs what is claimed; its rents are those of uses of candidates;
/// and its tree, from a root that leaves each candidate free, shows the bound (weak duality, at each leaf). Then no fitting
/// configuration costs less than the bound. What is overfull in the tree is told as the certificate's version has it. Else
/// the first fault comes: of the configuration, where a number past the candidates comes before too many pages, and these
/// before two candidates that clash; of the cost, the rents, and then node by node. `Memory` is want of memory.
pub fn check(alloc: Global, setting: &Setting<'_>, cert: &Cert) -> Result<Checked, CheckFault>
    requires { CertLimits cert.now }
    ensures checked { IfOk result (faults.IsChecked (the_setting setting.now) free_node cert.now) }
    ensures bounds { IfOk result (λ checked. BoundsAll (the_setting setting.now) checked.budget checked.cost checked.bound) }
    ensures fault { IfErr result (faults.IsFault (the_setting setting.now) free_node cert.now) }
    ensures proved { views.IsProof (the_setting setting.now) free_node cert.now → IfErr result (λ fault. fault ≡ CheckFault.Memory) }
{
    let root = Fix::free();
    let figures = Figures::new(alloc, setting)?;
    let parts = parts_of(alloc, setting)?;
    let judge = Judge::new(alloc, setting, &figures, Claims::of_cert(cert), &root)?;
    let mut memo = Memo::new(alloc, setting, parts.as_slice(), judge.claims.sets)?;
    judge.judge_claims(alloc, &mut memo)?;
    judge.judge_tree(alloc, &mut memo, cert.tree.as_slice())?;
    Ok(Checked {
        budget: cert.budget,
        cost: cert.cost,
        bound: cert.bound,
    })
}

/// How many bytes are read at once.
const PIECE: usize = 4096;

/// Reads the tree behind a head to the file's end, and judges it node by node.
fn read_tree<S: Shelf>(
    alloc: Global,
    judge: &Judge<'_>,
    memo: &mut Memo<'_>,
    shelf: &mut S,
    name: &str,
    head: &Head,
) -> Result<(), AtFault>
    requires judge { readings.IsJudgeFor judge.now head.now }
    requires memo_is { IsMemo (judges.setting_of judge.now) judge.now.claims.sets.now memo.old }
    requires head { at.IsSomeHead head.now }
    ensures whole { OnOk result ((text : List ℕ) × at.IsBehind (S.files shelf.old) name.now head.now.tree_at text × readings.IsWhole judge.now head.now text) }
    ensures fault { IfErr result (λ fault. (text : List ℕ) × at.IsBehind (S.files shelf.old) name.now head.now.tree_at text
        × at.IsAtFault (judges.setting_of judge.now) (judges.root_of judge.now) head.now text fault) }
    ensures failed { IsErrOf result AtFault.Failed → Rose (S.read_faults shelf.old) (S.read_faults shelf.new) }
    ensures failed_at { IsErrOf result AtFault.Failed → Rose (S.read_faults_at shelf.old name.now) (S.read_faults_at shelf.new name.now) }

    ensures files { S.files shelf.new ≡ S.files shelf.old }
    ensures counts { S.read_faults shelf.old ≤ S.read_faults shelf.new }
    ensures counts_at { (n : List ℕ) → S.read_faults_at shelf.old n ≤ S.read_faults_at shelf.new n }
    ensures puts { S.put_faults shelf.new ≡ S.put_faults shelf.old }
{
    let mut reader = TreeReader::new(alloc, judge, head)?;
    let mut buf = [0; PIECE];
    let mut place = head.tree_at;
    'reading: loop {
        let count = shelf.read_at(name, place, &mut buf)?;
        if count == 0 {
            return reader.end(head);
        }
        reader.take(alloc, judge, memo, head, &buf[..count])?;
        place += count as u64;
    }
}

/// Judges a certificate whose tree stands in a file, for a setting and from a root, by its head. It judges as `check` does, by
/// the rule of the head's version, and reads the tree meanwhile: it keeps the sets, a node for each open branch and one line.
/// `Failed` comes only where a read failed. Where the shelf tells its files, `Malformed` comes only where the file has no tree
/// behind the head, and then its line is the first at which none goes on. `Fault` has the first fault, and that isn't want of
/// memory. After Ok each fitting configuration below the root costs at least the bound.
pub fn check_at<S: Shelf>(
    alloc: Global,
    setting: &Setting<'_>,
    root: &Fix,
    shelf: &mut S,
    name: &str,
    head: &Head,
) -> Result<Checked, AtFault>
    requires { at.IsSomeHead head.now }
    ensures checked { IfOk result (λ checked. (text : List ℕ) × at.IsBehind (S.files shelf.old) name.now head.now.tree_at text
        × at.IsProofAt (the_setting setting.now) (node_of root.now) head.now text checked) }
    ensures bounds { IfOk result (λ checked. at.BoundsBelow (the_setting setting.now) (node_of root.now) checked.budget checked.bound) }
    ensures fault { IfErr result (λ fault. (text : List ℕ) × at.IsBehind (S.files shelf.old) name.now head.now.tree_at text
        × at.IsAtFault (the_setting setting.now) (node_of root.now) head.now text fault) }
    ensures failed { IsErrOf result AtFault.Failed → Rose (S.read_faults shelf.old) (S.read_faults shelf.new) }
    ensures failed_at { IsErrOf result AtFault.Failed → Rose (S.read_faults_at shelf.old name.now) (S.read_faults_at shelf.new name.now) }

    ensures files { S.files shelf.new ≡ S.files shelf.old }
    ensures counts { S.read_faults shelf.old ≤ S.read_faults shelf.new }
    ensures counts_at { (n : List ℕ) → S.read_faults_at shelf.old n ≤ S.read_faults_at shelf.new n }
    ensures puts { S.put_faults shelf.new ≡ S.put_faults shelf.old }
{
    let figures = Figures::new(alloc, setting)?;
    let parts = parts_of(alloc, setting)?;
    let judge = Judge::new(alloc, setting, &figures, Claims::of_head(head), root)?;
    let mut memo = Memo::new(alloc, setting, parts.as_slice(), judge.claims.sets)?;
    judge.judge_claims(alloc, &mut memo)?;
    read_tree(alloc, &judge, &mut memo, shelf, name, head)?;
    Ok(Checked {
        budget: head.budget,
        cost: head.cost,
        bound: head.bound,
    })
}
