ghost use Rattle.std.specs.Prelude.{◌≡◌, ◌⊎◌};
ghost use Rattle.std.specs.Io.KnownBytes.{Appends};
ghost use Rattle.command_outcome.specs.Outcome.{IsDueStatus, TellsNoFault};
ghost use Rattle.command_outcome.specs.Ends.{Answers, EndsCut, EndsDue, EndsUnread, EndsUnsaved};
ghost use Rattle.command_outcome.specs.Ends.{EndsUsage, IsComplete, LeavesAll, NoneFailed, Serves};
ghost use Rattle.command_outcome.specs.Ends.{paper, reply_status, reply_text, shelf};
ghost use Rattle.command_outcome.specs.FileWords.{texts};
ghost use Rattle.rulebook_cli.specs.Words.{HasNoReading, IsCommand, request_of};
ghost use Rattle.rulebook_cli.specs.Asked.{asked, task_of};
ghost use Rattle.rulebook_cli.specs.Headline.{CheckPrintsTheAnswer, PlanPrintsTheAnswer};

use crate::picking::pick;
use crate::words::{Command, HELP, read_words};
use check_command::check;
use command_outcome::{Reply, Status, Stop, deliver, print_text};
use outside_io::{Sink, Store};
use rulebook_commands::{
    accept_child, compare_rows, derive, judge_records, plan, sample, show, walk,
};
use std::alloc::Global;

// Does the command's work.
fn serve<S: Store>(alloc: Global, store: &mut S, command: Command<'_>) -> Result<Vec<u8>, Stop>
    requires { IsCommand command }
    ensures { Serves (task_of (request_of command.entry))
        (shelf S.held S.faults S.failed store.old)
        (shelf S.held S.faults S.failed store.new) result }
{
    match command {
        Command::Pick { book, table } => pick(alloc, store, book, table),
        Command::Compare { book, table } => compare_rows(alloc, store, book, table),
        Command::Show { scenario } => show(alloc, store, scenario),
        Command::Walk {
            scenario,
            book,
            lattice,
            list,
        } => walk(alloc, store, scenario, book, lattice, list),
        Command::Accept { parent, child } => accept_child(alloc, store, parent, child),
        Command::Derive { parent, script } => derive(alloc, store, parent, script),
        Command::Judge {
            scenario,
            book,
            lattice,
            records,
        } => judge_records(alloc, store, scenario, book, lattice, records),
        Command::Plan {
            scenario,
            book,
            lattice,
            certificate,
        } => plan(alloc, store, scenario, book, lattice, certificate),
        Command::Check {
            scenario,
            book,
            lattice,
            certificate,
        } => check(alloc, store, scenario, book, lattice, certificate),
        Command::Sample { number } => sample(alloc, number),
        Command::Help => print_text(alloc, HELP),
    }
}

// Reads the words, and does the work that they ask for.
fn answer<S: Store>(alloc: Global, words: &[String], store: &mut S) -> Reply
    ensures { Answers (asked (texts words.now)) (HasNoReading (texts words.now))
        (shelf S.held S.faults S.failed store.old)
        (shelf S.held S.faults S.failed store.new) (reply_status result) (reply_text result) }
{
    let Some(command) = read_words(words) else {
        return Reply::Usage;
    };
    Reply::to(serve(alloc, store, command))
}

/// Does all that the program does: reads the words, loads and reads the files, does the command's
/// work, saves what it saves, and writes one text. Nothing is saved or written before the whole
/// text is made.
pub fn run_rulebook<S: Store, K: Sink>(
    alloc: Global,
    words: &[String],
    store: &mut S,
    out: &mut K,
) -> Status
    // The status is the due one; a due text was appended and nothing else; the files are as the due
    // outcome says.
    ensures due { IsDueStatus result → EndsDue (asked (texts words.now))
        (shelf S.held S.faults S.failed store.old) (shelf S.held S.faults S.failed store.new) result
        (Appends (K.written out.old) (K.written out.new)) }

    // The headline. A plan that is done has printed exactly the violation vectors of lattice
    // trajectories that none beats, each once with a trajectory that has it, or `none` where there
    // is no lattice trajectory; and a certificate that shows it stands under its last word.
    ensures plan { result ≡ Status.Done → PlanPrintsTheAnswer (texts words.now) (S.held store.old)
        (S.held store.new)
        (Appends (K.written out.old) (K.written out.new)) }

    // A check that is done has printed exactly the same of its scene, whoever made the certificate.
    ensures check { result ≡ Status.Done → CheckPrintsTheAnswer (texts words.now) (S.held store.old)
        (Appends (K.written out.old) (K.written out.new)) }

    // A file of the words couldn't be read, every one before it has a reading, and the text says
    // which.
    ensures read_fault { result ≡ Status.ReadFault → EndsUnread (asked (texts words.now))
        (shelf S.held S.faults S.failed store.old) (shelf S.held S.faults S.failed store.new)
        (Appends (K.written out.old) (K.written out.new)) }

    // The save of a due outcome failed, and nothing was written; or the sink failed on a due text,
    // or on the one that says which file couldn't be read, and a front of it was appended.
    ensures write_fault { result ≡ Status.WriteFault →
        EndsUnsaved (asked (texts words.now))
        (shelf S.held S.faults S.failed store.old) (shelf S.held S.faults S.failed store.new)
        (paper K.written K.faults out.old) (paper K.written K.faults out.new)
        ⊎ EndsCut (asked (texts words.now))
        (shelf S.held S.faults S.failed store.old) (shelf S.held S.faults S.failed store.new)
        (paper K.written K.faults out.old) (paper K.written K.faults out.new) }

    // Memory ran out: no load failed, and nothing was saved or written.
    ensures no_memory { result ≡ Status.NoMemory → LeavesAll
        (shelf S.held S.faults S.failed store.old) (shelf S.held S.faults S.failed store.new)
        (paper K.written K.faults out.old) (paper K.written K.faults out.new) }

    // Where the status tells of no fault, no call of the store or the sink failed.
    ensures no_fault { TellsNoFault result → NoneFailed
        (shelf S.held S.faults S.failed store.old) (shelf S.held S.faults S.failed store.new)
        (paper K.written K.faults out.old) (paper K.written K.faults out.new) }

    // Where no count of faults rose, the status is the due one, unless memory ran out.
    ensures complete { IsComplete (asked (texts words.now))
        (shelf S.held S.faults S.failed store.old) (shelf S.held S.faults S.failed store.new)
        (paper K.written K.faults out.old) (paper K.written K.faults out.new) result }

    // Words with no reading, and no others, are told the usage, whatever the store and the sink
    // tell. No file is touched.
    ensures usage { result ≡ Status.Usage → HasNoReading (texts words.now) }
    ensures bad_words { HasNoReading (texts words.now) → EndsUsage
        (shelf S.held S.faults S.failed store.old) (shelf S.held S.faults S.failed store.new)
        (paper K.written K.faults out.old) (paper K.written K.faults out.new) result }
{
    let reply = answer(alloc, words, store);
    deliver(out, &reply)
}
