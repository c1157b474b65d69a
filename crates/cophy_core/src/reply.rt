//! Answers with their texts, and how they are given.
ghost use Rattle.std.specs.Prelude.{◌≡◌, ◌<◌, ◌≤◌, ◌⊎◌, ℕ, List, [], None, IfErr, OnOk, OnErr, length};
ghost use Rattle.adv_shelf.specs.Faults.{Rose};
ghost use Rattle.adv_shelf.specs.Sink.{append_to, AppendsPrefix};
ghost use Rattle.report.specs.Texts.{done_text, FitsSetting};
ghost use Rattle.cophy_core.specs.Causes.{IsBounded};
ghost use Rattle.command_line.specs.CommandLine.{texts};
ghost use Rattle.cophy_core.specs.Files.{counts};
ghost use Rattle.cophy_core.specs.Endings.{outside, plain_puts, put_all, Ends, IsUnput};

use crate::worked::FilePut;
use adv_base::{Bytes, List};
use adv_shelf::{Failed, PutFault, Shelf, Sink, write_all};
use report::{Done, text};
use std::alloc::Global;

/// An answer, the files that are put for it, and its text.
#[derive(Drop)]
pub(crate) struct Reply {
    pub done: Done,
    pub puts: List<FilePut>,
    pub text: Bytes,
}

impl Reply {
    /// An answer that speaks of no setting; want of memory, where there is none for its text.
    pub(crate) fn plain(alloc: Global, words: &[String], done: Done) -> Reply
        requires fits { FitsSetting None done }
        requires bound { IsBounded done }
        ensures done { (result.done ≡ done) ⊎ (result.done ≡ Done.Memory) }
        ensures puts { plain_puts result.puts ≡ [] }
        ensures text { result.text ≡ done_text (texts words.now) None result.done }
        ensures bound { IsBounded result.done }
    {
        match text(alloc, &done, words, None) {
            Ok(text) => Reply {
                done,
                puts: List::new(alloc),
                text,
            },
            Err(_) => Reply {
                done: Done::Memory,
                puts: List::new(alloc),
                text: Bytes {
                    items: Vec::new(alloc),
                },
            },
        }
    }
}

/// Puts files, one after the other.
fn put_each<S: Shelf>(shelf: &mut S, puts: &[FilePut]) -> Result<(), PutFault>
    ensures ok { OnOk result (S.files shelf.new ≡ put_all (S.files shelf.old) (plain_puts puts.now)) }
    ensures err { IfErr result (IsUnput (S.files shelf.old) (S.files shelf.new) (S.put_faults shelf.old) (S.put_faults shelf.new) (plain_puts puts.now)) }
    ensures counts { S.put_faults shelf.old ≤ S.put_faults shelf.new }
    ensures reads { S.read_faults shelf.new ≡ S.read_faults shelf.old }
    ensures reads_at { (n : List ℕ) → S.read_faults_at shelf.new n ≡ S.read_faults_at shelf.old n }
{
    'puts: for at in 0..puts.len() {
        let file = &puts[at];
        shelf.put(file.name.as_str(), file.bytes.as_slice())?;
    }
    Ok(())
}

/// Writes a text. Where there is none the output isn't asked, and so can't fail.
fn write_text<O: Sink>(out: &mut O, text: &[u8]) -> Result<(), Failed>
    ensures ok { OnOk result (O.written out.new ≡ append_to (O.written out.old) text.now) }
    ensures failed { OnErr result (Rose (O.faults out.old) (O.faults out.new)) }
    ensures prefix { OnErr result (AppendsPrefix (O.written out.old) (O.written out.new) text.now) }
    ensures some { OnErr result (0 < length text.now) }
    ensures counts { O.faults out.old ≤ O.faults out.new }
{
    if text.len() == 0 {
        return Ok(());
    }
    write_all(out, text)
}

/// Puts a reply's files and writes its text, and answers what it answers, or why that could not be done.
pub(crate) fn give<S: Shelf, O: Sink>(shelf: &mut S, out: &mut O, reply: Reply) -> Done
    ensures ends { Ends (outside (S.files shelf.old) (counts (S.read_faults shelf.old) (S.read_faults_at shelf.old)) (S.put_faults shelf.old) (O.written out.old) (O.faults out.old))
        (outside (S.files shelf.new) (counts (S.read_faults shelf.new) (S.read_faults_at shelf.new)) (S.put_faults shelf.new) (O.written out.new) (O.faults out.new))
        reply.done (plain_puts reply.puts) reply.text result }
    ensures puts { S.put_faults shelf.old ≤ S.put_faults shelf.new }
    ensures faults { O.faults out.old ≤ O.faults out.new }
    ensures reads { S.read_faults shelf.new ≡ S.read_faults shelf.old }
    ensures reads_at { (n : List ℕ) → S.read_faults_at shelf.new n ≡ S.read_faults_at shelf.old n }
{
    match put_each(shelf, reply.puts.as_slice()) {
        Err(PutFault::Memory) => return Done::Memory,
        Err(PutFault::Failed) => return Done::WriteFault,
        Ok(()) => {}
    }
    match write_text(out, reply.text.as_slice()) {
        Ok(()) => reply.done,
        Err(_) => Done::WriteFault,
    }
}
