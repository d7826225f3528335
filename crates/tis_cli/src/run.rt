//! The one call that does all that the program does.
ghost use Rattle.std.specs.Prelude.{◌≡◌, ◌≢◌, ◌↔◌, ◌⊎◌, ℕ, List, Option, Some, None, OnOk, OnErr, IfErr, IsErrOf};
ghost use Rattle.tis_base.specs.Outside.{Texts, Rose};
ghost use Rattle.tis_cli.specs.Answers.{Answer, Put, answer_status};
ghost use Rattle.tis_cli.specs.Commands.{Command as SomeCommand, Compile, Network, Run as ByClock, Order, Replay, Grade, Debug, command_of, command_view, kept_seeds, fetched, destination_of, ComesTo};
ghost use Rattle.tis_cli.specs.Outcomes.{words_of, IsCalled, PutsReport, PutsBytes, texts_under, IsOfAnswer, IsOfWork, IsAnswered, IsCutShort, IsUnlessFailure, status_after, Explains, Runs, IsPut, AreEnds, Finishes};

use crate::command::{Command, SEEDS, read_words};
use crate::grades::grade;
use crate::nets::net as net_streams;
use crate::runs::{Run, clock, debug, order, replay};
use crate::status::Status;
use net_column::compile as compile_text;
use std::alloc::Global;
use tis_base::{Sink, Store};
use tis_save::write_save;

// Compiles the network under one name, and keeps its save under another.
fn compile<S: Store>(alloc: Global, net: &str, save: &str, store: &mut S) -> Result<(), Status>
    ensures explains { (written : Option (List ℕ)) → Explains (Compile net.now save.now) (S.texts store.old) written (status_after result) (record { texts = S.texts store.new; written = written }) }
    ensures texts_stay { OnErr result (S.texts store.new ≡ S.texts store.old) }
    ensures missing_counted { IsErrOf result Status.Missing → Rose (S.misses store.old) (S.misses store.new) }
    ensures fault_counted { IsErrOf result Status.StoreFault → Rose (S.faults store.old) (S.faults store.new) }
    ensures misses_stay { result ≢ Err Status.Missing → S.misses store.new ≡ S.misses store.old }
    ensures faults_stay { result ≢ Err Status.StoreFault → S.faults store.new ≡ S.faults store.old }
{
    let text = store.fetch(alloc, net)?;
    let programs = compile_text(alloc, &text)?;
    let bytes = write_save(alloc, &programs)?;
    store.keep(save, &bytes)?;
    Ok(())
}

// The status of a command that was done, or stopped with another one.
fn status_of(outcome: Result<(), Status>) -> Status
    ensures { result ≡ status_after outcome }
{
    match outcome {
        Ok(()) => Status::Done,
        Err(status) => status,
    }
}

// What the streams of a network over a grid text under these names come to.
fn work_of_net<S: Store>(alloc: Global, net: &str, grid: &str, store: &mut S) -> Result<Run, Status>
    ensures runs { Runs (Network net.now grid.now) (S.texts store.old) result }
    ensures texts_stay { S.texts store.new ≡ S.texts store.old }
    ensures missing_counted { IsErrOf result Status.Missing → Rose (S.misses store.old) (S.misses store.new) }
    ensures fault_counted { IsErrOf result Status.StoreFault → Rose (S.faults store.old) (S.faults store.new) }
    ensures misses_stay { result ≢ Err Status.Missing → S.misses store.new ≡ S.misses store.old }
    ensures faults_stay { result ≢ Err Status.StoreFault → S.faults store.new ≡ S.faults store.old }
{
    let text = store.fetch(alloc, net)?;
    let given = store.fetch(alloc, grid)?;
    net_streams(alloc, &text, &given)
}

// What a run by the clock over the texts under these names comes to.
fn work_of_run<S: Store>(
    alloc: Global,
    save: &str,
    spec: &str,
    seed: u64,
    cycles: u64,
    store: &mut S,
) -> Result<Run, Status>
    ensures runs { Runs (ByClock save.now spec.now seed cycles) (S.texts store.old) result }
    ensures texts_stay { S.texts store.new ≡ S.texts store.old }
    ensures missing_counted { IsErrOf result Status.Missing → Rose (S.misses store.old) (S.misses store.new) }
    ensures fault_counted { IsErrOf result Status.StoreFault → Rose (S.faults store.old) (S.faults store.new) }
    ensures misses_stay { result ≢ Err Status.Missing → S.misses store.new ≡ S.misses store.old }
    ensures faults_stay { result ≢ Err Status.StoreFault → S.faults store.new ≡ S.faults store.old }
{
    let saved = store.fetch(alloc, save)?;
    let spec = store.fetch(alloc, spec)?;
    clock(alloc, &saved, &spec, seed, cycles)
}

// What a drawn order over the texts under these names comes to.
fn work_of_order<S: Store>(
    alloc: Global,
    save: &str,
    spec: &str,
    seed: u64,
    order_seed: u64,
    limit: u64,
    store: &mut S,
) -> Result<Run, Status>
    ensures runs { Runs (Order save.now spec.now seed order_seed limit) (S.texts store.old) result }
    ensures texts_stay { S.texts store.new ≡ S.texts store.old }
    ensures missing_counted { IsErrOf result Status.Missing → Rose (S.misses store.old) (S.misses store.new) }
    ensures fault_counted { IsErrOf result Status.StoreFault → Rose (S.faults store.old) (S.faults store.new) }
    ensures misses_stay { result ≢ Err Status.Missing → S.misses store.new ≡ S.misses store.old }
    ensures faults_stay { result ≢ Err Status.StoreFault → S.faults store.new ≡ S.faults store.old }
{
    let saved = store.fetch(alloc, save)?;
    let spec = store.fetch(alloc, spec)?;
    order(alloc, &saved, &spec, seed, order_seed, limit)
}

// What the order under one name comes to over the texts under the others.
fn work_of_replay<S: Store>(
    alloc: Global,
    save: &str,
    spec: &str,
    seed: u64,
    events: &str,
    store: &mut S,
) -> Result<Run, Status>
    ensures runs { Runs (Replay save.now spec.now seed events.now) (S.texts store.old) result }
    ensures texts_stay { S.texts store.new ≡ S.texts store.old }
    ensures missing_counted { IsErrOf result Status.Missing → Rose (S.misses store.old) (S.misses store.new) }
    ensures fault_counted { IsErrOf result Status.StoreFault → Rose (S.faults store.old) (S.faults store.new) }
    ensures misses_stay { result ≢ Err Status.Missing → S.misses store.new ≡ S.misses store.old }
    ensures faults_stay { result ≢ Err Status.StoreFault → S.faults store.new ≡ S.faults store.old }
{
    let saved = store.fetch(alloc, save)?;
    let spec = store.fetch(alloc, spec)?;
    let events = store.fetch(alloc, events)?;
    replay(alloc, &saved, &spec, seed, &events)
}

// What the grades of a save over a specification under these names come to.
fn work_of_grade<S: Store>(
    alloc: Global,
    save: &str,
    spec: &str,
    limit: u64,
    seeds: &[Option<u64>; SEEDS],
    store: &mut S,
) -> Result<Run, Status>
    ensures runs { Runs (Grade save.now spec.now limit (kept_seeds seeds.now)) (S.texts store.old) result }
    ensures texts_stay { S.texts store.new ≡ S.texts store.old }
    ensures missing_counted { IsErrOf result Status.Missing → Rose (S.misses store.old) (S.misses store.new) }
    ensures fault_counted { IsErrOf result Status.StoreFault → Rose (S.faults store.old) (S.faults store.new) }
    ensures misses_stay { result ≢ Err Status.Missing → S.misses store.new ≡ S.misses store.old }
    ensures faults_stay { result ≢ Err Status.StoreFault → S.faults store.new ≡ S.faults store.old }
{
    let saved = store.fetch(alloc, save)?;
    let spec = store.fetch(alloc, spec)?;
    grade(alloc, &saved, &spec, limit, seeds)
}

// What the script under one name comes to over the texts under the others.
fn work_of_debug<S: Store>(
    alloc: Global,
    save: &str,
    spec: &str,
    seed: u64,
    script: &str,
    store: &mut S,
) -> Result<Run, Status>
    ensures runs { Runs (Debug save.now spec.now seed script.now) (S.texts store.old) result }
    ensures texts_stay { S.texts store.new ≡ S.texts store.old }
    ensures missing_counted { IsErrOf result Status.Missing → Rose (S.misses store.old) (S.misses store.new) }
    ensures fault_counted { IsErrOf result Status.StoreFault → Rose (S.faults store.old) (S.faults store.new) }
    ensures misses_stay { result ≢ Err Status.Missing → S.misses store.new ≡ S.misses store.old }
    ensures faults_stay { result ≢ Err Status.StoreFault → S.faults store.new ≡ S.faults store.old }
{
    let saved = store.fetch(alloc, save)?;
    let spec = store.fetch(alloc, spec)?;
    let script = store.fetch(alloc, script)?;
    debug(alloc, &saved, &spec, seed, &script)
}

// Puts a report, and says how the command ended.
fn put_report<K: Sink>(run: &Run, out: &mut K) -> Status
    requires { IsOfWork run.now.status }
    ensures put { IsPut run.now (K.written out.old) result (K.written out.new) }
    ensures sink_fault_counted { result ≡ Status.SinkFault → Rose (K.faults out.old) (K.faults out.new) }
    ensures sink_faults_stay { result ≢ Status.SinkFault → K.faults out.new ≡ K.faults out.old }
{
    match out.put(&run.report) {
        Ok(()) => run.status,
        Err(error) => Status::from(error),
    }
}

// Puts the report of a command that has one, and says how the command ended.
fn finish<K: Sink>(work: Result<Run, Status>, out: &mut K) -> Status
    requires { AreEnds work }
    ensures finishes { Finishes work (K.written out.old) result (K.written out.new) }
    ensures early { IfErr work (λ status. result ≡ status) }
    ensures late { OnOk work ((result ≢ Status.Missing) × (result ≢ Status.StoreFault)) }
    ensures sink_fault_counted { result ≡ Status.SinkFault → Rose (K.faults out.old) (K.faults out.new) }
    ensures sink_faults_stay { result ≢ Status.SinkFault → K.faults out.new ≡ K.faults out.old }
    ensures unreported { (IsOfWork result → ⊥) → result ≢ Status.SinkFault → result ≢ Status.NoMemory → out.new ≡ out.old }
    ensures unwritten { result ≡ Status.NoMemory → K.written out.new ≡ K.written out.old }
{
    match work {
        Ok(run) => put_report(&run, out),
        Err(early) => early,
    }
}

// Does what a command says.
fn perform<S: Store, K: Sink>(alloc: Global, command: Command, store: &mut S, out: &mut K) -> Status
    ensures explains { Explains (command_view command.entry) (S.texts store.old) (K.written out.old) result (record { texts = S.texts store.new; written = K.written out.new }) }
    ensures texts_stay { result ≢ Status.Done → S.texts store.new ≡ S.texts store.old }
    ensures missing_counted { result ≡ Status.Missing → Rose (S.misses store.old) (S.misses store.new) }
    ensures fault_counted { result ≡ Status.StoreFault → Rose (S.faults store.old) (S.faults store.new) }
    ensures misses_stay { result ≢ Status.Missing → S.misses store.new ≡ S.misses store.old }
    ensures faults_stay { result ≢ Status.StoreFault → S.faults store.new ≡ S.faults store.old }
    ensures sink_fault_counted { result ≡ Status.SinkFault → Rose (K.faults out.old) (K.faults out.new) }
    ensures sink_faults_stay { result ≢ Status.SinkFault → K.faults out.new ≡ K.faults out.old }
    ensures unreported { (IsOfWork result → ⊥) → result ≢ Status.SinkFault → result ≢ Status.NoMemory → out.new ≡ out.old }
    ensures unwritten { result ≡ Status.NoMemory → K.written out.new ≡ K.written out.old }
    ensures sink_stays { (destination_of (command_view command.entry) ≡ Put → ⊥) → out.new ≡ out.old }
{
    match command {
        Command::Compile { net, save } => status_of(compile(alloc, net, save, store)),
        Command::Net { net, grid } => finish(work_of_net(alloc, net, grid, store), out),
        Command::Run {
            save,
            spec,
            seed,
            cycles,
        } => finish(work_of_run(alloc, save, spec, seed, cycles, store), out),
        Command::Order {
            save,
            spec,
            seed,
            order_seed,
            limit,
        } => finish(
            work_of_order(alloc, save, spec, seed, order_seed, limit, store),
            out,
        ),
        Command::Replay {
            save,
            spec,
            seed,
            events,
        } => finish(work_of_replay(alloc, save, spec, seed, events, store), out),
        Command::Grade {
            save,
            spec,
            limit,
            seeds,
        } => finish(work_of_grade(alloc, save, spec, limit, &seeds, store), out),
        Command::Debug {
            save,
            spec,
            seed,
            script,
        } => finish(work_of_debug(alloc, save, spec, seed, script, store), out),
    }
}

/// Does what the words say, and says how it ended.
///
/// `compile NET SAVE` fetches the text under the name NET, and keeps the canonical save of the
/// network that it is under the name SAVE. `net NET GRID` puts the Kahn stream of each output of a network over the
/// inputs of a grid text. `run SAVE SPEC SEED CYCLES` runs a save over a specification cycle
/// by cycle, and puts a report; `order SAVE SPEC SEED ORDERSEED LIMIT` runs it in an order that is drawn with
/// ORDERSEED; `replay SAVE SPEC SEED EVENTS`
/// runs it by the events of a text; `grade SAVE SPEC LIMIT SEED [SEED ..]` says whether it passes for each of one to eight
/// seeds; `debug SAVE SPEC SEED SCRIPT` does what the lines of a script say, each a command of the debugger. Other words
/// are no command. The words are looked at
/// first, then the names, then the texts in the order in which a command reads them, then its work;
/// what it makes is kept, or put as a report, at the end.
pub fn tool<S: Store, K: Sink>(
    alloc: Global,
    words: &[String],
    store: &mut S,
    out: &mut K,
) -> Status
    // The words are no command exactly where the answer says so, and then nothing was fetched or put.
    ensures words { (result ≡ Status.Words) ↔ (command_of (words_of words.now) ≡ None) }
    ensures words_touch_nothing { result ≡ Status.Words → (store.new ≡ store.old) × (out.new ≡ out.old) }

    // A name that the command fetches isn't there.
    ensures missing_counted { result ≡ Status.Missing → Rose (S.misses store.old) (S.misses store.new) }
    ensures missing_only { (command : SomeCommand) (texts : Texts) → IsCalled (words_of words.now) (S.texts store.old) command texts → result ≡ Status.Missing → texts_under texts (fetched command) ≡ None }
    ensures missing_where { (command : SomeCommand) (texts : Texts) → IsCalled (words_of words.now) (S.texts store.old) command texts → texts_under texts (fetched command) ≡ None → IsUnlessFailure ⊥ result Status.Missing }

    // The store failed, or the sink failed under the report of a command that puts one.
    ensures store_fault_counted { result ≡ Status.StoreFault → Rose (S.faults store.old) (S.faults store.new) }
    ensures sink_fault_counted { result ≡ Status.SinkFault → Rose (K.faults out.old) (K.faults out.new) }
    ensures sink_fault_only { result ≡ Status.SinkFault → PutsReport (words_of words.now) }
    ensures cut_short { (command : SomeCommand) (texts : Texts) → IsCalled (words_of words.now) (S.texts store.old) command texts → result ≡ Status.SinkFault → IsCutShort command texts (K.written out.old) (K.written out.new) }

    // A text or the work over it is refused, or the work comes to its end.
    ensures answered { (command : SomeCommand) (texts : Texts) → IsCalled (words_of words.now) (S.texts store.old) command texts → IsOfAnswer result → IsAnswered command texts (K.written out.old) result (record { texts = S.texts store.new; written = K.written out.new }) }

    // What the texts come to is answered, unless the outside failed or memory ran out.
    ensures complete { (command : SomeCommand) (texts : Texts) (found : List (List ℕ)) (answer : Answer) → IsCalled (words_of words.now) (S.texts store.old) command texts → texts_under texts (fetched command) ≡ Some found → ComesTo command found answer → IsUnlessFailure (PutsBytes (destination_of command) answer) result (answer_status answer) }

    // No fault and no miss is passed over.
    ensures misses_stay { result ≢ Status.Missing → S.misses store.new ≡ S.misses store.old }
    ensures faults_stay { result ≢ Status.StoreFault → S.faults store.new ≡ S.faults store.old }
    ensures sink_faults_stay { result ≢ Status.SinkFault → K.faults out.new ≡ K.faults out.old }

    // Nothing else changes.
    ensures texts_stay { result ≢ Status.Done → S.texts store.new ≡ S.texts store.old }
    ensures unreported { (IsOfWork result → ⊥) → result ≢ Status.SinkFault → result ≢ Status.NoMemory → out.new ≡ out.old }
    ensures unwritten { result ≡ Status.NoMemory → K.written out.new ≡ K.written out.old }
    ensures sink_stays { (PutsReport (words_of words.now) → ⊥) → out.new ≡ out.old }
{
    match read_words(words) {
        None => Status::Words,
        Some(command) => perform(alloc, command, store, out),
    }
}
