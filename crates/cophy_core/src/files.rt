//! The files of a command.
ghost use Rattle.std.specs.Prelude.{◌≡◌, ◌≤◌, ◌<◌, ◌∷◌, [], ◌++◌, ℕ, List, Some, IfOk, IfErr, OnOk, length, slice_get};
ghost use Rattle.adv_base.specs.declared.limits.TheConstants.{MOST_CERTIFICATE_BYTES, MOST_FILE_BYTES};
ghost use Rattle.certificate.specs.Scanners.{StandsFor};
ghost use Rattle.cophy_core.specs.Files as spec;
ghost use Rattle.cophy_core.specs.Files.{counts, input, input_file, plain_uses, IsInput, SomeInput, AreInputs};
ghost use Rattle.cophy_core.specs.Reading.{IsUnreadFile, StopsReading};

use crate::stop::Stop;
use adv_base::limits::{MOST_CERTIFICATE_BYTES, MOST_FILE_BYTES};
use adv_base::{Bytes, List, NoMemory};
use adv_shelf::{GetFault, Shelf, feed_all, read_all};
use certificate::Scanner;
use report::{Refusal, Role};
use std::alloc::Global;

/// A file that a command reads: in which role, by what name, and of how many bytes at most.
#[derive(Clone, Copy)]
pub struct FileUse<'a> {
    pub role: Role,
    pub name: &'a str,
    pub most: u64,
}

/// What was read of a command's files: the bytes of those that are read whole, and of a certificate behind them what a
/// scanner keeps.
#[derive(Drop)]
pub(crate) struct Inputs {
    pub whole: List<Bytes>,
    pub scanner: Option<Scanner>,
}

/// A file that is read whole.
fn plain_file<'a>(role: Role, name: &'a str) -> FileUse<'a>
    ensures { input_file result.role result.name.now result.most ≡ input_file role name.now MOST_FILE_BYTES }
{
    FileUse {
        role,
        name,
        most: MOST_FILE_BYTES,
    }
}

/// A catalogue and a workload.
pub(crate) fn setting_files<'a>(cat: &'a str, load: &'a str) -> [FileUse<'a>; 2]
    ensures { plain_uses result ≡ spec.setting_files cat.now load.now }
{
    [
        plain_file(Role::Catalogue, cat),
        plain_file(Role::Workload, load),
    ]
}

/// These and a configuration, rules or edits.
pub(crate) fn three_files<'a>(cat: &'a str, load: &'a str, third: &'a str) -> [FileUse<'a>; 3]
    ensures { plain_uses result ≡ spec.three_files cat.now load.now third.now }
{
    [
        plain_file(Role::Catalogue, cat),
        plain_file(Role::Workload, load),
        plain_file(Role::Third, third),
    ]
}

/// A certificate, the last file of a command.
pub(crate) fn certificate_file<'a>(role: Role, name: &'a str) -> FileUse<'a>
    ensures { input_file result.role result.name.now result.most ≡ input_file role name.now MOST_CERTIFICATE_BYTES }
{
    FileUse {
        role,
        name,
        most: MOST_CERTIFICATE_BYTES,
    }
}

/// The bytes of a file.
fn read_file<S: Shelf>(alloc: Global, shelf: &mut S, file: &FileUse<'_>) -> Result<Bytes, Stop>
    ensures whole { IfOk result (IsInput (S.files shelf.old) (input_file file.now.role file.now.name.now file.now.most)) }
    ensures stop { IfErr result (IsUnreadFile (S.files shelf.old) (counts (S.read_faults shelf.old) (S.read_faults_at shelf.old))
        (counts (S.read_faults shelf.new) (S.read_faults_at shelf.new)) (input_file file.now.role file.now.name.now file.now.most)) }

    ensures files { S.files shelf.new ≡ S.files shelf.old }
    ensures counts { S.read_faults shelf.old ≤ S.read_faults shelf.new }
    ensures counts_at { (n : List ℕ) → S.read_faults_at shelf.old n ≤ S.read_faults_at shelf.new n }
    ensures puts { S.put_faults shelf.new ≡ S.put_faults shelf.old }
{
    match read_all(alloc, shelf, file.name, file.most) {
        Ok(bytes) => Ok(bytes),
        Err(GetFault::Memory) => Err(Stop::Memory),
        Err(GetFault::Failed) => Err(Stop::Failed(file.role)),
        Err(GetFault::TooLong) => Err(Stop::Refused(Refusal::TooLong(file.role))),
    }
}

/// A scanner that was handed a file, piece by piece to its end.
pub(crate) fn scan_file<S: Shelf>(
    alloc: Global,
    shelf: &mut S,
    file: &FileUse<'_>,
) -> Result<Scanner, Stop>
    ensures scanned { IfOk result (λ scanner. SomeInput (S.files shelf.old) (input_file file.now.role file.now.name.now file.now.most) (StandsFor scanner)) }
    ensures stop { IfErr result (IsUnreadFile (S.files shelf.old) (counts (S.read_faults shelf.old) (S.read_faults_at shelf.old))
        (counts (S.read_faults shelf.new) (S.read_faults_at shelf.new)) (input_file file.now.role file.now.name.now file.now.most)) }

    ensures files { S.files shelf.new ≡ S.files shelf.old }
    ensures counts { S.read_faults shelf.old ≤ S.read_faults shelf.new }
    ensures counts_at { (n : List ℕ) → S.read_faults_at shelf.old n ≤ S.read_faults_at shelf.new n }
    ensures puts { S.put_faults shelf.new ≡ S.put_faults shelf.old }
{
    let mut scanner = Scanner::new(alloc)?;
    match feed_all(shelf, file.name, file.most, &mut scanner) {
        Ok(_) => Ok(scanner),
        Err(GetFault::Memory) => Err(Stop::Memory),
        Err(GetFault::Failed) => Err(Stop::Failed(file.role)),
        Err(GetFault::TooLong) => Err(Stop::Refused(Refusal::TooLong(file.role))),
    }
}

/// The file of a number, from 0.
fn file_at<'a>(files: &[FileUse<'a>], at: usize) -> FileUse<'a>
    requires { at < length files.now }
    ensures { slice_get files.now at ≡ Some result }
{
    files[at]
}

/// Puts the bytes of the next file at the end.
pub(crate) fn put(inputs: &mut Vec<Bytes>, bytes: Bytes) -> Result<(), NoMemory>
    ensures { OnOk result (inputs.new.items ≡ inputs.old.items ++ bytes ∷ []) }
{
    inputs.push(bytes).map_err(|_| NoMemory)
}

/// The bytes of files, read in their order.
pub(crate) fn read_each<S: Shelf>(
    alloc: Global,
    shelf: &mut S,
    files: &[FileUse<'_>],
) -> Result<List<Bytes>, Stop>
    ensures inputs { IfOk result (AreInputs (S.files shelf.old) (plain_uses files.now)) }
    ensures stop { IfErr result (StopsReading (S.files shelf.old) (plain_uses files.now)
        (counts (S.read_faults shelf.old) (S.read_faults_at shelf.old)) (counts (S.read_faults shelf.new) (S.read_faults_at shelf.new))) }

    ensures files { S.files shelf.new ≡ S.files shelf.old }
    ensures counts { S.read_faults shelf.old ≤ S.read_faults shelf.new }
    ensures counts_at { (n : List ℕ) → S.read_faults_at shelf.old n ≤ S.read_faults_at shelf.new n }
    ensures puts { S.put_faults shelf.new ≡ S.put_faults shelf.old }
{
    let mut inputs = Vec::new(alloc);
    'files: for at in 0..files.len() {
        let file = file_at(files, at);
        let bytes = read_file(alloc, shelf, &file)?;
        put(&mut inputs, bytes)?;
    }
    Ok(List { items: inputs })
}

/// The bytes of the file of a number, from 0.
pub(crate) fn bytes_at(inputs: &List<Bytes>, at: usize) -> &[u8]
    ensures { result.now ≡ input inputs.now at }
{
    match inputs.as_slice().get(at) {
        Some(bytes) => bytes.as_slice(),
        None => &[],
    }
}
