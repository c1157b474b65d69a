//! A shelf in memory, whose calls fail where they are told to.
ghost use Rattle.std.specs.Prelude.{◌≡◌, ◌≤◌, ◌<◌, ◌↔◌, ◌⊎◌, ◌-◌, ◌++◌, ◌∷◌, [], length, Option, Some, None, Ok, OnOk, OnErr, IfOk, IsErr, IsErrOf};
ghost use Rattle.std.specs.Option.{option_copied};
ghost use Rattle.std.specs.FinMap.{get, insert};
ghost use Rattle.adv_shelf.specs.Shelf.{HasFile};
ghost use Rattle.adv_shelf.specs.Memory.{ShelfState, new_shelf, IsDue, IsWholeRead, after_call, files_of, next_count};

use crate::failing::count_call;
use crate::{Failed, PutFault, Shelf};
use adv_base::{Bytes, Name, NoMemory};
use std::alloc::{AllocError, Global};
use std::collections::VecDeque;
use std::marker::Model;

/// A shelf in memory. It tells its files, and the calls whose numbers it was given fail.
#[derive(Drop)]
pub struct MemShelf {
    alloc: Global,
    /// The newest first, which is the one that counts.
    files: VecDeque<(Name, Bytes)>,
    /// For each call that is to fail, how many calls from now it is.
    failing: Vec<u64>,
    read_faults: u64,
    put_faults: u64,
}

impl Model for MemShelf {
    ghost use Rattle.adv_shelf.specs.Memory.{ShelfState, shelf_code, files_of};

    ghost Value = { ShelfState };

    ghost coded = { shelf_code };

    ghost view = { λ a. record { files = files_of a.files.items; failing = a.failing.items; read_faults = a.read_faults; put_faults = a.put_faults } };
}

impl MemShelf {
    /// A shelf with no file, no fault and no call that is to fail.
    pub fn new(alloc: Global) -> Result<MemShelf, NoMemory>
        ensures { IfOk result (λ shelf. shelf ≡ new_shelf) }
    {
        Ok(MemShelf {
            alloc,
            files: VecDeque::new(alloc),
            failing: Vec::new(alloc),
            read_faults: 0,
            put_faults: 0,
        })
    }

    /// The bytes of the file of that name, or `None` where there is no such file.
    pub fn file(&self, name: &str) -> Option<&[u8]>
        ensures { option_copied result ≡ get self.now.files name.now }
    {
        find_file(&self.files, name)
    }

    /// Makes the call of that number fail, counted from 1 from now on. Reads and puts are counted in one
    /// sequence, in which a read into an empty buffer has no number.
    pub fn fail_at(&mut self, call: u64) -> Result<(), NoMemory>
        ensures ok { OnOk result (self.new ≡ record self.old { failing = self.old.failing ++ call ∷ [] }) }
        ensures err { OnErr result (self.new ≡ self.old) }
    {
        match self.failing.push(call) {
            Ok(()) => Ok(()),
            Err(_) => Err(NoMemory),
        }
    }
}

impl Shelf for MemShelf {
    ghost files = { λ s. Some s.files };

    ghost read_faults = { λ s. s.read_faults };

    ghost read_faults_at = { λ s _. s.read_faults };

    ghost put_faults = { λ s. s.put_faults };

    /// As many bytes as the buffer has room for, or as the file still has. It takes no memory.
    fn read_at(&mut self, name: &str, from: u64, buf: &mut [u8]) -> Result<usize, Failed>
        ensures fails { 0 < length buf.old → (IsErr result ↔ (IsDue self.old.failing ⊎ (get self.old.files name.now ≡ None))) }
        ensures empty { length buf.old ≡ 0 → result ≡ Ok 0 }
        ensures read { 0 < length buf.old → IfOk result (λ n. HasFile (Some self.old.files) name.now (λ file. IsWholeRead file from buf.old n buf.new)) }
        ensures within { IfOk result (λ n. n ≤ length buf.old) }

        ensures no_number { length buf.old ≡ 0 → self.new ≡ self.old }
        ensures ok { 0 < length buf.old → OnOk result (self.new ≡ record self.old { failing = after_call self.old.failing }) }
        ensures err { OnErr result (self.new ≡ record self.old { failing = after_call self.old.failing; read_faults = next_count self.old.read_faults }) }
        ensures counts { self.old.read_faults ≤ self.new.read_faults }
    {
        if buf.is_empty() {
            return Ok(0);
        }
        if count_call(&mut self.failing) {
            self.read_faults = self.read_faults.saturating_add(1);
            return Err(Failed);
        }
        match find_file(&self.files, name) {
            Some(file) => Ok(copy_from(file, from, buf)),
            None => {
                self.read_faults = self.read_faults.saturating_add(1);
                Err(Failed)
            }
        }
    }

    /// The whole file at once, or nothing of it.
    fn put(&mut self, name: &str, bytes: &[u8]) -> Result<(), PutFault>
        ensures fails { IsErrOf result PutFault.Failed ↔ IsDue self.old.failing }
        ensures ok { OnOk result (self.new ≡ record self.old { files = insert self.old.files name.now bytes.now; failing = after_call self.old.failing }) }
        ensures memory { IsErrOf result PutFault.Memory → self.new ≡ record self.old { failing = after_call self.old.failing } }
        ensures failed { IsErrOf result PutFault.Failed → self.new ≡ record self.old { failing = after_call self.old.failing; put_faults = next_count self.old.put_faults } }
        ensures counts { self.old.put_faults ≤ self.new.put_faults }
    {
        if count_call(&mut self.failing) {
            self.put_faults = self.put_faults.saturating_add(1);
            return Err(PutFault::Failed);
        }
        match add_file(self.alloc, &mut self.files, name, bytes) {
            Ok(()) => Ok(()),
            Err(_) => Err(PutFault::Memory),
        }
    }
}

/// Puts a file in front of all others.
fn add_file(
    alloc: Global,
    files: &mut VecDeque<(Name, Bytes)>,
    name: &str,
    bytes: &[u8],
) -> Result<(), AllocError>
    ensures ok { OnOk result (files.new.items ≡ (name.now, bytes.now) ∷ files.old.items) }
    ensures err { OnErr result (files.new.items ≡ files.old.items) }
{
    let name = Name {
        items: Vec::from_slice(alloc, name.as_bytes())?,
    };
    let bytes = Bytes {
        items: Vec::from_slice(alloc, bytes)?,
    };
    files.push_front((name, bytes))?;
    Ok(())
}

/// Copies a file's bytes from a place on, as many as there are and the buffer has room for.
fn copy_from(file: &[u8], from: u64, buf: &mut [u8]) -> usize
    ensures { IsWholeRead file.now from buf.old result buf.new }
{
    let start = file.len().min(from as usize);
    let rest = &file[start..];
    let count = rest.len().min(buf.len());
    buf[..count].copy_from_slice(&rest[..count]);
    count
}

/// The bytes of the first file of that name.
fn find_file<'a>(files: &'a VecDeque<(Name, Bytes)>, name: &str) -> Option<&'a [u8]>
    ensures { option_copied result ≡ get (files_of files.now.items) name.now }
{
    for (key, bytes) in files {
        if name.as_bytes() == key.as_slice() {
            return Some(bytes.as_slice());
        }
    }
    None
}
