//! From words to an answer with its text.
ghost use Rattle.std.specs.Prelude.{◌≡◌, ◌≤◌, ℕ, List, Ok, IfOk, IfErr};
ghost use Rattle.cophy_core.specs.Causes.{IsBounded};
ghost use Rattle.command_line.specs.Spellings.{IsInRange};
ghost use Rattle.command_line.specs.CommandLine.{texts, plain_command, command_of};
ghost use Rattle.cophy_core.specs.Endings.{plain_puts};
ghost use Rattle.cophy_core.specs.Files.{counts};
ghost use Rattle.cophy_core.specs.Reading.{StopsAtFiles};
ghost use Rattle.cophy_core.specs.Replies.{IsReply, Replies};

use crate::commands::{inputs_of, work};
use crate::files::bytes_at;
use crate::reply::Reply;
use crate::setting::open;
use crate::stop::Stop;
use adv_shelf::Shelf;
use command_line::{Command, read_words};
use report::{Done, text};
use std::alloc::Global;

/// The answer to a command with its text, or why there is none.
fn answer<S: Shelf>(
    alloc: Global,
    words: &[String],
    shelf: &mut S,
    command: &Command<'_>,
) -> Result<Reply, Stop>
    requires { IsInRange (plain_command command.now) }
    ensures reply { IfOk result (λ reply. Replies (plain_command command.now) (S.files shelf.old) (texts words.now) reply.done (plain_puts reply.puts) reply.text) }
    ensures bound { IfOk result (λ reply. IsBounded reply.done) }
    ensures stop { IfErr result (StopsAtFiles (plain_command command.now) (S.files shelf.old)
        (counts (S.read_faults shelf.old) (S.read_faults_at shelf.old)) (counts (S.read_faults shelf.new) (S.read_faults_at shelf.new))) }

    ensures files { S.files shelf.new ≡ S.files shelf.old }
    ensures counts { S.read_faults shelf.old ≤ S.read_faults shelf.new }
    ensures counts_at { (n : List ℕ) → S.read_faults_at shelf.old n ≤ S.read_faults_at shelf.new n }
    ensures puts { S.put_faults shelf.new ≡ S.put_faults shelf.old }
{
    let inputs = inputs_of(alloc, shelf, command)?;
    let (opened, proposed) = open(
        alloc,
        bytes_at(&inputs.whole, 0),
        bytes_at(&inputs.whole, 1),
    )?;
    let setting = opened.setting();
    let left_over = opened.left_over;
    let worked = work(alloc, shelf, command, inputs, &setting, left_over, proposed)?;
    let text = text(alloc, &worked.done, words, Some(&setting))?;
    Ok(Reply {
        done: worked.done,
        puts: worked.puts,
        text,
    })
}

/// The reply to the words of a command.
fn reply_to<S: Shelf>(
    alloc: Global,
    words: &[String],
    shelf: &mut S,
    command: &Command<'_>,
) -> Reply
    requires { command_of (texts words.now) ≡ Ok (plain_command command.now) }
    ensures reply { IsReply (texts words.now) (S.files shelf.old)
        (counts (S.read_faults shelf.old) (S.read_faults_at shelf.old)) (counts (S.read_faults shelf.new) (S.read_faults_at shelf.new))
        result.done (plain_puts result.puts) result.text }
    ensures bound { IsBounded result.done }

    ensures files { S.files shelf.new ≡ S.files shelf.old }
    ensures counts { S.read_faults shelf.old ≤ S.read_faults shelf.new }
    ensures counts_at { (n : List ℕ) → S.read_faults_at shelf.old n ≤ S.read_faults_at shelf.new n }
    ensures puts { S.put_faults shelf.new ≡ S.put_faults shelf.old }
{
    match answer(alloc, words, shelf, command) {
        Ok(reply) => reply,
        Err(stop) => Reply::plain(alloc, words, stop.done()),
    }
}

/// The reply to words.
pub(crate) fn reply<S: Shelf>(alloc: Global, words: &[String], shelf: &mut S) -> Reply
    ensures reply { IsReply (texts words.now) (S.files shelf.old)
        (counts (S.read_faults shelf.old) (S.read_faults_at shelf.old)) (counts (S.read_faults shelf.new) (S.read_faults_at shelf.new))
        result.done (plain_puts result.puts) result.text }
    ensures bound { IsBounded result.done }

    ensures files { S.files shelf.new ≡ S.files shelf.old }
    ensures counts { S.read_faults shelf.old ≤ S.read_faults shelf.new }
    ensures counts_at { (n : List ℕ) → S.read_faults_at shelf.old n ≤ S.read_faults_at shelf.new n }
    ensures puts { S.put_faults shelf.new ≡ S.put_faults shelf.old }
{
    match read_words(words) {
        Ok(command) => reply_to(alloc, words, shelf, &command),
        Err(fault) => Reply::plain(alloc, words, Done::Usage(fault)),
    }
}
