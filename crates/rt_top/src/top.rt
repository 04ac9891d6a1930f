ghost use Rattle.std.specs.Prelude.{◌≡◌, ◌≢◌, ◌↔◌, ◌≤◌, ℕ, List, length};
ghost use Rattle.rt_base.specs.Outside.{Takes};
ghost use Rattle.rt_base.specs.Script.{IsScript};
ghost use Rattle.rt_top.specs.Words.{IsAccepted, IsGen, bytes_of, command_of, most_bytes};
ghost use Rattle.rt_top.specs.declared.purpose.TheConstants.{MAX_CHECK_BYTES};
ghost use Rattle.rt_top.specs.Answer.{Answers, AnswersBadScript, AnswersInput, AnswersRead, AnswersScript, Journals, input_of, journal_text, output_of, script_text};
ghost use Rattle.rt_top.specs.Message.{fault_at};
ghost use Rattle.rt_top.specs.Status.{status_number};
ghost use Rattle.rt_top.specs.declared.status.Status.{Status};

use crate::checking::{check_journal, parts};
use crate::command::{Command, command_in};
use crate::generating::generate_and_count;
use crate::message::{bad_script, tell, tell_read_fault, tell_too_long, tell_usage};
use crate::options::{Options, turns};
use crate::purpose::Purpose;
use crate::replaying::print_replay;
use crate::status::Status;
use crate::words::is_accepted;
use rt_base::{Failed, NoMemory, Sink, Source, Taken, Turnstile, read_whole};
use rt_core::Core;
use rt_script::{Script, ScriptFault, Why, read_script};
use std::alloc::Global;
use std::thread::Threads;

/// How much text is gathered before it goes to the sink.
const BUFFER: usize = 64 * 1024;

/// The whole program but for its standard streams: takes the words after the program's name, reads the
/// source, writes the sink, and answers the exit status. The command `replay` reads a script, makes the picks
/// and then events in the stated order, at most as many as `--turns` says or else the budget, and writes
/// journal and report. `check` reads a script and, behind its first line `go`, a journal with report, and
/// writes whether that is one of a run of the script, and how the run ended, or else which line is the first
/// wrong one, and why. `gen` reads nothing: it makes the script of a number, replays it, and writes how many events
/// of each kind there were, how many gave each reply, and how the run ended. Where nothing of that is done, one line
/// is written that says why.
pub fn rtlab<R: Threads + Sync, S: Source, K: Sink, T: Turnstile + Sync>(
    rt: &R,
    alloc: Global,
    words: &[String],
    src: &mut S,
    out: &mut K,
    gate: &T,
) -> u8
    // Words that aren't taken are refused before anything is read.
    ensures usage { (result ≡ 2) ↔ (IsAccepted (bytes_of words.now) → ⊥) }
    ensures unread { result ≡ 2 → src.new ≡ src.old }

    // Nor is anything read for a script that the generator makes.
    ensures made { IsGen (command_of (bytes_of words.now)) → src.new ≡ src.old }

    // One list of bytes stands for those that were read, and what the answer says is true of it.
    ensures outcome { (status : Status) × (bytes : List ℕ) × (result ≡ status_number status)
        × Takes (S.left src.old) bytes (S.left src.new)
        × Answers (command_of (bytes_of words.now)) status bytes
        (input_of S.left S.faults src.old src.new) (output_of K.held K.faults out.old out.new) }

    // All memory is taken before the first byte is written.
    ensures unwritten { result ≡ 8 → out.new ≡ out.old }
    ensures read_count { S.faults src.old ≤ S.faults src.new }
    ensures write_count { K.faults out.old ≤ K.faults out.new }
{
    answer(alloc, words, src, out).number()
}

// Answers the command that the words name.
fn answer<S: Source, K: Sink>(alloc: Global, words: &[String], src: &mut S, out: &mut K) -> Status
    ensures usage { (result ≡ Status.Usage) ↔ (IsAccepted (bytes_of words.now) → ⊥) }
    ensures unread { result ≡ Status.Usage → src.new ≡ src.old }
    ensures made { IsGen (command_of (bytes_of words.now)) → src.new ≡ src.old }
    ensures outcome { (bytes : List ℕ)
        × Takes (S.left src.old) bytes (S.left src.new)
        × Answers (command_of (bytes_of words.now)) result bytes
        (input_of S.left S.faults src.old src.new) (output_of K.held K.faults out.old out.new) }
    ensures unwritten { result ≡ Status.NoMemory → out.new ≡ out.old }
    ensures read_count { S.faults src.old ≤ S.faults src.new }
    ensures write_count { K.faults out.old ≤ K.faults out.new }
{
    if !is_accepted(words) {
        tell_usage(out);
        return Status::Usage;
    }
    match command_in(alloc, words) {
        Ok(Command::Read(purpose)) => answer_read(alloc, purpose, src, out),
        Ok(Command::Gen(number, options)) => generate_and_count(alloc, number, options, out),
        Err(NoMemory) => Status::NoMemory,
    }
}

// Reads the input for that, and answers.
fn answer_read<S: Source, K: Sink>(
    alloc: Global,
    purpose: Purpose,
    src: &mut S,
    out: &mut K,
) -> Status
    ensures outcome { (bytes : List ℕ)
        × Takes (S.left src.old) bytes (S.left src.new)
        × AnswersRead purpose result bytes
        (input_of S.left S.faults src.old src.new) (output_of K.held K.faults out.old out.new) }
    ensures unwritten { result ≡ Status.NoMemory → out.new ≡ out.old }
    ensures read_count { S.faults src.old ≤ S.faults src.new }
    ensures write_count { K.faults out.old ≤ K.faults out.new }
{
    let mut bytes = Vec::new(alloc);
    match read_whole(alloc, src, purpose.most_bytes(), &mut bytes) {
        Ok(Taken::Whole) => answer_input(alloc, purpose, &bytes, out),
        Ok(Taken::Over) => {
            tell_too_long(out);
            Status::TooLong
        }
        Ok(Taken::Fault) => {
            tell_read_fault(out);
            Status::ReadFault
        }
        Err(NoMemory) => Status::NoMemory,
    }
}

// What of an input that is read for that is the script, and what the journal.
fn parts_for(purpose: Purpose, input: &[u8]) -> (&[u8], &[u8])
    ensures script { result.0.now ≡ script_text purpose input.now }
    ensures journal { result.1.now ≡ journal_text purpose input.now }
{
    match purpose {
        Purpose::Replay(_) => (input, &[]),
        Purpose::Check => parts(input),
    }
}

// Answers where these bytes were read.
fn answer_input<K: Sink>(alloc: Global, purpose: Purpose, bytes: &[u8], out: &mut K) -> Status
    requires { length bytes.now ≤ most_bytes purpose }
    ensures outcome { AnswersInput purpose result bytes.now (output_of K.held K.faults out.old out.new) }
    ensures read { (result ≢ Status.Usage) × (result ≢ Status.ReadFault) × (result ≢ Status.TooLong) }
    ensures unwritten { result ≡ Status.NoMemory → out.new ≡ out.old }
    ensures write_count { K.faults out.old ≤ K.faults out.new }
{
    let (text, journal) = parts_for(purpose, bytes);
    match read_script(alloc, text) {
        Ok(script) => answer_script(alloc, purpose, &script, journal, out),
        Err(ScriptFault::At { line, why }) => answer_bad_script(alloc, line, why, out),
        Err(ScriptFault::Memory(_)) => Status::NoMemory,
    }
}

// Answers where this script and this journal were read.
fn answer_script<K: Sink>(
    alloc: Global,
    purpose: Purpose,
    script: &Script,
    journal: &[u8],
    out: &mut K,
) -> Status
    requires valid { IsScript script.now }
    requires short { length journal.now ≤ MAX_CHECK_BYTES }
    ensures outcome { AnswersScript purpose result script.now journal.now
        (output_of K.held K.faults out.old out.new) }
    ensures read { (result ≢ Status.Usage) × (result ≢ Status.ReadFault) × (result ≢ Status.TooLong) }
    ensures unwritten { result ≡ Status.NoMemory → out.new ≡ out.old }
    ensures write_count { K.faults out.old ≤ K.faults out.new }
{
    match purpose {
        Purpose::Replay(options) => replay_script(alloc, options, script, out),
        Purpose::Check => check_journal(alloc, script, journal, out),
    }
}

// Answers that the input is no script, and writes the line that says why.
fn answer_bad_script<K: Sink>(alloc: Global, line: u32, why: Why, out: &mut K) -> Status
    ensures outcome { AnswersBadScript result (fault_at line why)
        (output_of K.held K.faults out.old out.new) }
    ensures unwritten { result ≡ Status.NoMemory → out.new ≡ out.old }
    ensures write_count { K.faults out.old ≤ K.faults out.new }
{
    let Ok(text) = bad_script(alloc, line, why) else {
        return Status::NoMemory;
    };
    tell(text.as_bytes(), out);
    Status::BadScript
}

// Replays a script. All memory is taken before the first byte is written.
fn replay_script<K: Sink>(alloc: Global, options: Options, script: &Script, out: &mut K) -> Status
    requires { IsScript script.now }
    ensures outcome { Journals result options script.now (output_of K.held K.faults out.old out.new) }
    ensures unwritten { result ≡ Status.NoMemory → out.new ≡ out.old }
    ensures write_count { K.faults out.old ≤ K.faults out.new }
{
    let Ok(mut core) = Core::new(alloc, script) else {
        return Status::NoMemory;
    };
    let Ok(mut buf) = Vec::with_capacity(alloc, BUFFER) else {
        return Status::NoMemory;
    };
    let turns = turns(options, script);
    match print_replay(&mut core, script, turns, &mut buf, out) {
        Ok(ended) => Status::of_run(ended),
        Err(Failed) => Status::WriteFault,
    }
}
