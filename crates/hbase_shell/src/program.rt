//! The program on what the system gave it.
ghost use Rattle.std.specs.Prelude.{◌≡◌, ◌≢◌, Err, IfOk, IfErr, drop, map};
ghost use Rattle.std.specs.String.{string_bytes};
ghost use Rattle.std.specs.IoError.{error_kind};
ghost use Rattle.hbase_shell.specs.Run.{IsRun, IsWritten, met_of, sent_of};

use crate::outcome::Outcome;
use crate::run::{finish, hbase};
use crate::run_error::RunError;
use hb_causes::{Clock, Gate, OpenGate, RealClock, Sink, Source, StdSink, StdSource};
use hb_wire::Items;
use ns_tree::{MemNs, Namespace, Tree};
use std::alloc::Global;
use std::env::Env;
use std::io::ErrorKind;
use std::{env, io, rt};

/// Runs the program over a system: on its words, its standard input and output and its clock, over a store and
/// a peer of no files in memory.
pub fn hbase_main<R: Env + Input + Print + rt::Clock + AllocGlobal + Copy + Drop + Send>(
    rt: R,
) -> Outcome<MemNs, MemNs, RealClock<R>> {
    let alloc = rt.alloc();
    hbase_program(
        alloc,
        read_words(&rt),
        &mut StdSource::new(&rt),
        &mut StdSink::new(rt),
        empty_store(alloc),
        empty_store(alloc),
        RealClock::new(rt),
        &OpenGate,
    )
}

// All words that the program was called by, its name first.
fn read_words<R: Env + AllocGlobal>(rt: &R) -> io::Result<Vec<String>> {
    Ok(env::args(rt)?.collect(rt.alloc())?)
}

// A store of no files, in memory, whose calls never fail.
fn empty_store(alloc: Global) -> MemNs {
    MemNs::new(Tree::new(alloc), Items::new(alloc), Items::new(alloc))
}

/// Runs the program on the words that the system gave, the first of which is the program's name, as [`hbase`]
/// does on those behind it. Words that are no text are none that the program knows: status 2. Where the
/// system could not give them for another cause, memory was lacking: status 8. Nothing is read then.
pub fn hbase_program<
    N: Namespace + Send,
    P: Namespace + Send,
    I: Source,
    O: Sink,
    C: Clock + Send,
    G: Gate + Sync,
>(
    alloc: Global,
    words: io::Result<Vec<String>>,
    input: &mut I,
    output: &mut O,
    store: N,
    peer: P,
    clock: C,
    gate: &G,
) -> Outcome<N, P, C>
    ensures run { IfOk words (λ all. IsRun (map string_bytes (drop 1 all.items))
        (met_of I.left I.faults input.old input.new N.faults N.told store result.store)
        (sent_of O.written O.faults output.old output.new) result.status) }
    ensures other_words { IfErr words (λ error. error_kind error ≡ ErrorKind.InvalidData
        → IsWritten (sent_of O.written O.faults output.old output.new) (Err RunError.Usage) result.status) }
    ensures no_words { IfErr words (λ error. error_kind error ≢ ErrorKind.InvalidData
        → IsWritten (sent_of O.written O.faults output.old output.new) (Err RunError.NoMemory) result.status) }
    ensures unread { IfErr words (λ _. input.new ≡ input.old) }
    ensures told { N.told result.store ≡ N.told store }
    ensures kept { (result.peer ≡ peer) × (result.clock ≡ clock) }
{
    let error = match words {
        Ok(all) => {
            let words = behind_first(all.as_slice());
            return hbase(alloc, words, input, output, store, peer, clock, gate);
        }
        Err(error) if error.kind() == ErrorKind::InvalidData => RunError::Usage,
        Err(_) => RunError::NoMemory,
    };
    let status = finish(output, Err(error));
    Outcome {
        status,
        store,
        peer,
        clock,
    }
}

// The words behind the program's name.
fn behind_first(words: &[String]) -> &[String]
    ensures { result.now ≡ drop 1 words.now }
{
    match words {
        [_, behind @ ..] => behind,
        [] => words,
    }
}
