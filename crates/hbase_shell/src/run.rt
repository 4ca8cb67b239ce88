//! The program's calls, from words and bytes to bytes.
ghost use Rattle.std.specs.Prelude.{◌≡◌, ◌≢◌, ◌<◌, ◌≤◌, ◌⊎◌, ◌++◌, ℕ, List, Ok, IfOk, IfErr, IfSome, OnOk, false, length, map};
ghost use Rattle.std.specs.List.{AllByRecursion, flat_map};
ghost use Rattle.std.specs.Result.{IsErrOf};
ghost use Rattle.std.specs.String.{string_bytes};
ghost use Rattle.hb_causes.specs.Faults.{Rose};
ghost use Rattle.hbase_shell.specs.Run.{AnswersScript, AreListings, IsAnswered, IsDue, IsRun, IsWritten, RefusesScript, met_of, sent_of};
ghost use Rattle.hbase_shell.specs.Script.{IsScript, run_kinds};
ghost use Rattle.shell_script.specs.Script.{AreParsed};
ghost use Rattle.shell_words.specs.declared.options.Options.{Options};
ghost use Rattle.shell_words.specs.Line.{IsPlainLine};
ghost use Rattle.shell_words.specs.Reading.{AreTaken, Refuses};

use crate::answer::{answer_lines, lines_of};
use crate::outcome::Outcome;
use crate::output::write_text;
use crate::run_error::RunError;
use crate::script::read_script;
use hb_causes::{Clock, Failed, Gate, Sink, Source};
use hb_wire::Blob;
use ns_tree::Namespace;
use shell_words::{Options, read_words};
use std::alloc::Global;

/// The exit status of a run whose output could not be written.
const WRITE_FAULT: u8 = 4;

/// Runs the command that the words behind the program's name tell. The one command is `mem script` with any of the
/// options `--ttl`, `--tick` and `--rounds`. It runs the script of `input` over `store` and writes its answer to
/// `output`, as [`hbase_script`] does. Words that the command refuses take the status 2, and nothing is read.
///
/// It takes the allocator, and gives back what was handed in by value. The peer, the clock and the gate
/// are not used by this command.
pub fn hbase<
    N: Namespace + Send,
    P: Namespace + Send,
    I: Source,
    O: Sink,
    C: Clock + Send,
    G: Gate + Sync,
>(
    alloc: Global,
    words: &[String],
    input: &mut I,
    output: &mut O,
    store: N,
    peer: P,
    clock: C,
    gate: &G,
) -> Outcome<N, P, C>
    // The words were read, there was an answer by its cause, and it was written whole or cut off by a fault of the sink.
    ensures run { IsRun (map string_bytes words.now)
        (met_of I.left I.faults input.old input.new N.faults N.told store result.store)
        (sent_of O.written O.faults output.old output.new) result.status }

    // So this is what each status says.
    ensures listed { result.status ≡ 0 → AreTaken (map string_bytes words.now)
        × AnswersScript (N.told store) (I.left input.old) (I.left input.new) (O.written output.old) (O.written output.new) }
    ensures refused { result.status ≡ 1 → RefusesScript (I.left input.old) (I.left input.new) (O.written output.old) (O.written output.new) }
    ensures usage { result.status ≡ 2 → Refuses (map string_bytes words.now) }
    ensures read_fault { result.status ≡ 3 → Rose (I.faults input.old) (I.faults input.new) }
    ensures write_fault { result.status ≡ 4 → Rose (O.faults output.old) (O.faults output.new) }
    ensures ns_fault { result.status ≡ 5 → Rose (N.faults store) (N.faults result.store) }

    // A plain line of words is taken. Other words and other inputs are refused as such, unless a fault is, or there is
    // no memory. A script is not refused.
    ensures plain_words { (options : Options) → IsPlainLine (map string_bytes words.now) options → result.status ≢ 2 }
    ensures other_words { ¬ AreTaken (map string_bytes words.now)
        → ((result.status ≡ 2) ⊎ ((result.status ≡ 4) ⊎ (result.status ≡ 8))) × (input.new ≡ input.old) }
    ensures other_script { (options : Options) → IsPlainLine (map string_bytes words.now) options
        → IfSome (I.left input.old) (λ script. ¬ IsScript script
        → (result.status ≡ 1) ⊎ ((result.status ≡ 3) ⊎ ((result.status ≡ 4) ⊎ (result.status ≡ 8)))) }
    ensures script { IfSome (I.left input.old) (λ script. IsScript script → result.status ≢ 1) }

    ensures told { N.told result.store ≡ N.told store }
    ensures kept { (result.peer ≡ peer) × (result.clock ≡ clock) }
{
    let _ = gate;
    let error = match read_words(alloc, words) {
        Ok(options) => return hbase_script(alloc, &options, input, output, store, peer, clock),
        Err(error) => RunError::from(error),
    };
    let status = finish(output, Err(error));
    Outcome {
        status,
        store,
        peer,
        clock,
    }
}

/// Runs a script: reads it from `input`, answers it from `store`, and writes the whole answer to `output`
/// at the end. A script is any number of lines `list_snapshots`, each of which is answered by a line for each snapshot
/// of the store, in byte order, and a line with their number. Empty lines and lines that begin with `#` ask for
/// nothing. The store is listed once for all lines, and not for a script that asks for nothing.
///
/// | status | when | output |
/// |---|---|---|
/// | 0 | the script was answered | the listing, once a line |
/// | 1 | the input has more than 16,777,216 bytes | `error TooLong` |
/// | 1 | or else it has a bad line, of which this is the first | `error BadScript session 0 line <l> column <c>` |
/// | 3 | the source failed | `error ReadFault` |
/// | 4 | the sink failed | a front of what the others write |
/// | 5 | the store failed | `error NsFault` |
/// | 8 | no memory was left | `error NoMemory` |
///
/// The input is read to its end, or to its byte 16,777,217. Where it is no script or the source failed, the
/// store is as it was handed in. It waits for nobody.
pub fn hbase_script<N: Namespace, P: Namespace, I: Source, O: Sink, C: Clock>(
    alloc: Global,
    options: &Options,
    input: &mut I,
    output: &mut O,
    store: N,
    peer: P,
    clock: C,
) -> Outcome<N, P, C>
    // There was an answer by its cause, and it was written whole or cut off by a fault of the sink.
    ensures answered { IsAnswered (met_of I.left I.faults input.old input.new N.faults N.told store result.store (Ok options.now))
        (sent_of O.written O.faults output.old output.new) result.status }

    // So this is what each status says.
    ensures listed { result.status ≡ 0
        → AnswersScript (N.told store) (I.left input.old) (I.left input.new) (O.written output.old) (O.written output.new) }
    ensures refused { result.status ≡ 1 → RefusesScript (I.left input.old) (I.left input.new) (O.written output.old) (O.written output.new) }
    ensures usage { result.status ≢ 2 }
    ensures read_fault { result.status ≡ 3 → Rose (I.faults input.old) (I.faults input.new) }
    ensures write_fault { result.status ≡ 4 → Rose (O.faults output.old) (O.faults output.new) }
    ensures ns_fault { result.status ≡ 5 → Rose (N.faults store) (N.faults result.store) }

    // Other inputs are refused as such, unless a fault is, or there is no memory; and a script is not refused.
    ensures other_script { IfSome (I.left input.old) (λ script.
        ¬ IsScript script → (result.status ≡ 1) ⊎ ((result.status ≡ 3) ⊎ ((result.status ≡ 4) ⊎ (result.status ≡ 8)))) }
    ensures script { IfSome (I.left input.old) (λ script. IsScript script → result.status ≢ 1) }

    ensures told { N.told result.store ≡ N.told store }
    ensures kept { (result.peer ≡ peer) × (result.clock ≡ clock) }
{
    let mut store = store;
    let answer = answer_script(alloc, options, input, &mut store);
    let status = finish(output, answer);
    Outcome {
        status,
        store,
        peer,
        clock,
    }
}

// Reads the script, and then answers it from the store.
fn answer_script<I: Source, N: Namespace>(
    alloc: Global,
    options: &Options,
    input: &mut I,
    store: &mut N,
) -> Result<Blob, RunError>
    ensures due { IsDue (met_of I.left I.faults input.old input.new N.faults N.told store.old store.new (Ok options.now)) result }
    ensures told { N.told store.new ≡ N.told store.old }
{
    let _ = options;
    let script = read_script(alloc, input)?;
    answer_lines(alloc, lines_of(&script), store)
}

// Writes an answer, and gives the status of the run.
pub(crate) fn finish<O: Sink>(output: &mut O, answer: Result<Blob, RunError>) -> u8
    ensures { IsWritten (sent_of O.written O.faults output.old output.new) answer result }
{
    let (status, written) = match &answer {
        Ok(text) => (0, write_text(output, text.as_slice())),
        Err(error) => (error.status(), write_text(output, error.last_line())),
    };
    match written {
        Ok(()) => status,
        Err(Failed) => WRITE_FAULT,
    }
}
