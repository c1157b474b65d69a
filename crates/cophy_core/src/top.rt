//! The call that the program makes.
ghost use Rattle.std.specs.Prelude.{◌≡◌, ◌≢◌, ◌≤◌, ◌⊎◌, ℕ, not, List, map, Some, Ok, Err};
ghost use Rattle.std.specs.List.{list_any};
ghost use Rattle.report.specs.Sweeps as gaps;
ghost use Rattle.adv_shelf.specs.Shelf.{Files};
ghost use Rattle.command_line.specs.declared.fault.WordFault.{WordFault};
ghost use Rattle.cophy_core.specs.Causes.{gap_status, sweep_status as status_of_points, search_status, status_of, IsAnswered, IsOrMemory, IsSteady, UsageIsTrue, ReadFaultIsTrue, WriteFaultIsTrue, RefusalIsTrue, NotProvedIsTrue, GapIsTrue, MemoryWritesNothing, IsSound, IsWritten, IsBounded};
ghost use Rattle.cophy_core.specs.Answers.{Answers};
ghost use Rattle.command_line.specs.CommandLine.{texts, PlainCommand, command_of};
ghost use Rattle.cophy_core.specs.Endings.{outside};
ghost use Rattle.cophy_core.specs.Files.{counts};
ghost use Rattle.cophy_core.specs.Headline.{Asked, asked_command, IsAccepted, Headline};
ghost use Rattle.cophy_core.specs.Left.{LeavesFiles};
ghost use Rattle.cophy_core.specs.Replies.{IsRun};

use crate::answer::reply;
use crate::laws::checks_stand_alone;
use crate::reply::give;
use adv_shelf::{Shelf, Sink};
use bip_model::Point;
use certificate::{texts_are_one, written_certificates_fit};
use gap_checker::{best_answers_are_proved, faults_exclude_proofs};
use report::{Advice, Done, Tuned, has_no_gap, have_no_gap};
use std::alloc::Global;

/// The answer to the words of a command line, and the exit status that goes with it.
#[derive(Drop)]
pub struct Outcome {
    pub status: u8,
    pub done: Done,
}

/// The exit status of advice: 1 where a gap is left between bound and cost.
fn advice_status(advice: &Advice) -> u8
    ensures { result ≡ gap_status advice.now.answer.cost advice.now.answer.bound }
{
    let answer = &advice.answer;
    if has_no_gap(answer.cost, answer.bound) {
        0
    } else {
        1
    }
}

/// That of a sweep: 1 where a gap is left at some point.
fn sweep_status(points: &[Point]) -> u8
    ensures { result ≡ status_of_points points.now }
{
    if have_no_gap(points) { 0 } else { 1 }
}

/// Whether some advice has a gap.
fn has_some_gap(all: &[Tuned]) -> bool
    ensures { result ≡ list_any (λ tuned. not (gaps.has_no_gap tuned.advice.answer.cost tuned.advice.answer.bound)) all.now }
{
    all.iter().any(|tuned| !has_no_gap(tuned.advice.answer.cost, tuned.advice.answer.bound))
}

/// The exit status of the advice of a script: 1 where a gap is left in some of it.
fn tuned_status(all: &[Tuned]) -> u8
    ensures { result ≡ search_status (map (λ tuned. tuned.advice) all.now) }
{
    if has_some_gap(all) { 1 } else { 0 }
}

/// The exit status of an answer.
fn status(done: &Done) -> u8
    ensures { result ≡ status_of done.now }
{
    match done {
        Done::Usage(_) => 2,
        Done::ReadFault(_) => 3,
        Done::WriteFault => 4,
        Done::Refused(_) => 5,
        Done::NotProved(_) => 6,
        Done::Memory => 7,
        Done::Advised(advice) => advice_status(advice),
        Done::Ruled(ruled) => advice_status(&ruled.advice),
        Done::Benched(bench) => advice_status(&bench.advice),
        Done::Retuned(all) => tuned_status(all.as_slice()),
        Done::Swept(points) => sweep_status(points.as_slice()),
        _ => 0,
    }
}

/// Replies to the words: puts the files of the reply and writes its text.
fn carry_out<S: Shelf, O: Sink>(alloc: Global, words: &[String], shelf: &mut S, out: &mut O) -> Done
    ensures run { IsRun (texts words.now)
        (outside (S.files shelf.old) (counts (S.read_faults shelf.old) (S.read_faults_at shelf.old)) (S.put_faults shelf.old) (O.written out.old) (O.faults out.old))
        (outside (S.files shelf.new) (counts (S.read_faults shelf.new) (S.read_faults_at shelf.new)) (S.put_faults shelf.new) (O.written out.new) (O.faults out.new)) result }
    ensures bound { IsBounded result }

    ensures puts { S.put_faults shelf.old ≤ S.put_faults shelf.new }
    ensures reads { S.read_faults shelf.old ≤ S.read_faults shelf.new }
    ensures reads_at { (n : List ℕ) → S.read_faults_at shelf.old n ≤ S.read_faults_at shelf.new n }
    ensures writes { O.faults out.old ≤ O.faults out.new }
{
    let reply = reply(alloc, words, shelf);
    give(shelf, out, reply)
}

/// Answers the words of a command line: reads the files that its command names, or makes what `bench` advises on, puts the
/// certificate of advice, or those of a sweep's points, where they are asked for, or the workload that `fold` made, and writes the
/// answer's text to the output.
/// No other file changes.
///
/// The first of these that fails is the answer: the words; the files, each to its end, in the order of the words; the
/// catalogue; the workload's text; its names; what the command alone asks for; the work, and with it what a certificate fails
/// to prove; the puts; the write. Prices and explained plans are those of least plans (System R's search,
/// over bushy plans). Advice is a set of candidates that fits, with its exact cost and a bound that no set that fits
/// undercuts (CoPhy's programme over INUM's templates). A fault of reading or writing is answered only where the shelf's or
/// the sink's count of faults rose in this call. Want of memory may come at any time before the write, and then nothing is
/// written; no file changes, but of several certificates of a sweep the first ones may have been put.
pub fn run<S: Shelf, O: Sink>(
    alloc: Global,
    words: &[String],
    shelf: &mut S,
    out: &mut O,
) -> Outcome
    ensures status { result.status ≡ status_of result.done }
    // The rows of causes that follow come from this one and from that of write faults.
    ensures answer { IsAnswered (command_of (texts words.now))
        (outside (S.files shelf.old) (counts (S.read_faults shelf.old) (S.read_faults_at shelf.old)) (S.put_faults shelf.old) (O.written out.old) (O.faults out.old))
        (outside (S.files shelf.new) (counts (S.read_faults shelf.new) (S.read_faults_at shelf.new)) (S.put_faults shelf.new) (O.written out.new) (O.faults out.new)) result.done }
    // A faulty command line is told only where the words are none, and always there where no write failed.
    ensures usage { UsageIsTrue (command_of (texts words.now)) result.done }
    ensures usage_always { (fault : WordFault) → command_of (texts words.now) ≡ Err fault →
        IsSteady (O.faults out.old) (O.faults out.new) → IsOrMemory (Done.Usage fault) result.done }
    ensures read_fault { ReadFaultIsTrue (command_of (texts words.now))
        (outside (S.files shelf.old) (counts (S.read_faults shelf.old) (S.read_faults_at shelf.old)) (S.put_faults shelf.old) (O.written out.old) (O.faults out.old))
        (outside (S.files shelf.new) (counts (S.read_faults shelf.new) (S.read_faults_at shelf.new)) (S.put_faults shelf.new) (O.written out.new) (O.faults out.new)) result.done }
    ensures write_fault { WriteFaultIsTrue (command_of (texts words.now))
        (outside (S.files shelf.old) (counts (S.read_faults shelf.old) (S.read_faults_at shelf.old)) (S.put_faults shelf.old) (O.written out.old) (O.faults out.old))
        (outside (S.files shelf.new) (counts (S.read_faults shelf.new) (S.read_faults_at shelf.new)) (S.put_faults shelf.new) (O.written out.new) (O.faults out.new)) result.done }
    ensures refused { RefusalIsTrue (command_of (texts words.now)) (S.files shelf.old) result.done }
    // A certificate is said to prove nothing only to `check` and `check-ruled`, where nothing is refused, for what fails first.
    ensures not_proved { NotProvedIsTrue (command_of (texts words.now)) (S.files shelf.old) result.done }
    // Status 1 comes only where a search gave up, for advice, of which `retune` gives several, or at a point of a sweep at which
    // a gap is left: its nodes were spent, and it left a gap.
    ensures gap { GapIsTrue (command_of (texts words.now)) result.done }
    ensures memory { MemoryWritesNothing (O.written out.old) (O.written out.new) result.done }
    // Whatever the counts did, what is answered to a command is true of the files.
    ensures soundness { (command : PlainCommand) → command_of (texts words.now) ≡ Ok command → IsSound command (S.files shelf.old) result.done }
    // Where no count of faults rose, a command has its answer.
    ensures completeness { (command : PlainCommand) → command_of (texts words.now) ≡ Ok command →
        IsSteady (S.read_faults shelf.old) (S.read_faults shelf.new) → IsSteady (S.put_faults shelf.old) (S.put_faults shelf.new) →
        IsSteady (O.faults out.old) (O.faults out.new) →
        Answers command (S.files shelf.old) result.done ⊎ (result.done ≡ Done.Memory) }
    ensures text { IsWritten (texts words.now)
        (outside (S.files shelf.old) (counts (S.read_faults shelf.old) (S.read_faults_at shelf.old)) (S.put_faults shelf.old) (O.written out.old) (O.faults out.old))
        (outside (S.files shelf.new) (counts (S.read_faults shelf.new) (S.read_faults_at shelf.new)) (S.put_faults shelf.new) (O.written out.new) (O.faults out.new)) result.done }
    ensures bound { IsBounded result.done }
    // What advice promises of accepted files, where no count of faults rose and there was memory.
    ensures headline { (files : Files) (asked : Asked) → S.files shelf.old ≡ Some files →
        command_of (texts words.now) ≡ Ok (asked_command asked) → IsAccepted files asked →
        IsSteady (S.read_faults shelf.old) (S.read_faults shelf.new) → IsSteady (S.put_faults shelf.old) (S.put_faults shelf.new) →
        IsSteady (O.faults out.old) (O.faults out.new) → result.done ≢ Done.Memory →
        Headline (texts words.now) files asked
        (outside (S.files shelf.old) (counts (S.read_faults shelf.old) (S.read_faults_at shelf.old)) (S.put_faults shelf.old) (O.written out.old) (O.faults out.old))
        (outside (S.files shelf.new) (counts (S.read_faults shelf.new) (S.read_faults_at shelf.new)) (S.put_faults shelf.new) (O.written out.new) (O.faults out.new)) result.status result.done }

    // No file changes but those that a command puts: for advice, the one of its certificate; for a sweep, one for each
    // point; for `fold`, the one it names.
    ensures files { LeavesFiles (texts words.now)
        (outside (S.files shelf.old) (counts (S.read_faults shelf.old) (S.read_faults_at shelf.old)) (S.put_faults shelf.old) (O.written out.old) (O.faults out.old))
        (outside (S.files shelf.new) (counts (S.read_faults shelf.new) (S.read_faults_at shelf.new)) (S.put_faults shelf.new) (O.written out.new) (O.faults out.new)) result.done }
    ensures puts { S.put_faults shelf.old ≤ S.put_faults shelf.new }
    ensures reads { S.read_faults shelf.old ≤ S.read_faults shelf.new }
    ensures reads_at { (n : List ℕ) → S.read_faults_at shelf.old n ≤ S.read_faults_at shelf.new n }
    ensures writes { O.faults out.old ≤ O.faults out.new }
{
    written_certificates_fit();
    texts_are_one();
    best_answers_are_proved();
    faults_exclude_proofs();
    checks_stand_alone();
    let done = carry_out(alloc, words, shelf, out);
    Outcome {
        status: status(&done),
        done,
    }
}
