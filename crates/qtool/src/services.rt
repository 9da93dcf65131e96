//! Services: clients by the names of their streams, from the command line to what is left of them.
ghost use Rattle.std.specs.Prelude.{◌≡◌, ◌<◌, ◌≤◌, All, IfOk, IfSome, IsOkAnd, OnOk, length, map, true};
ghost use Rattle.std.specs.Io.KnownBytes.{Appends};
ghost use Rattle.qplain.specs.declared.edition.Edition.TheVariants.{Two};
ghost use Rattle.qplain.specs.State.{start};
ghost use Rattle.qtext_outcome.specs.Outcomes.{outcome_end};
ghost use Rattle.qshare.specs.declared.opening.TheConstants.{MAX_SEATS};
ghost use Rattle.qrun.specs.Beginnings.{HasBegun};
ghost use Rattle.qrun.specs.Serving.{KeepsTime, monitors_in};
ghost use Rattle.qrun.specs.Watching.{seats_for};
ghost use Rattle.qrun_replay.specs.Runs.{IsServiceOf};
ghost use Rattle.qrun_worker.specs.Work.{IsNewClient};
ghost use Rattle.qtool.specs.ClientNames.{terms_in, terms_of_client};
ghost use Rattle.qtool.specs.Printed.{PrintsService, seen};
ghost use Rattle.qtool.specs.Terms.{AreKept};

use crate::clashes::{ServiceNames, find_clash};
use crate::client_names::{ClientNames, is_output_taken, names_of};
use crate::ending::Ending;
use crate::running::ending_of_run;
use crate::served::{ServiceConfig, served, service_config};
use crate::standard::optional;
use crate::told_streams::ToldStreams;
use crate::{
    Files, Machine, NamedStreams, Outcome, OutcomeText, SavedNames, Setup, finish_outcome, serve,
};
use qplain::{MAX_WORKERS, NoMemory};
use qrun::{Beginning, Service};
use qrun_client::ClientEnd;
use qtext_client::{
    ClockMoments, Counting, Counts, EndedClient, Moments, OwnMoments, StreamClient,
};
use qtext_job::ServeJob;
use qtool_files::{BoardFile, ShownBoards};
use std::alloc::Global;
use std::io::Write;
use std::mem;
use std::sync::Wait;
use std::sync::atomic::AtomicBool;
use std::thread::Threads;
use std::time::Clock;

/// Tests that there is a seat for each client, and one more where a board is written.
fn test_seats(clients: u64, board: Option<&str>) -> Result<(), Ending>
    ensures { OnOk result (seats_for clients (monitors_in board.entry) ≤ MAX_SEATS) }
{
    if clients > MAX_WORKERS {
        return Err(Ending::TooManyClients);
    }
    match board {
        Some(_) if clients == MAX_WORKERS => Err(Ending::TooManyWithBoard),
        _ => Ok(()),
    }
}

/// The streams of a client by name, of whose faults it is told at once.
type ToldBy<F> = ToldStreams<<F as NamedStreams>::Streams, <F as NamedStreams>::Faults>;

/// A client over such streams.
type NamedClient<'a, F, M> = StreamClient<'a, ToldBy<F>, M>;

/// What is left of a service over such streams: its outcome, its clients, and whether the file for boards has refused.
struct Left<F: NamedStreams> {
    outcome: Outcome,
    clients: Vec<EndedClient<ToldBy<F>>>,
    refused: bool,
}

/// Where the lines of the client of this number are counted, where anybody counts.
fn counting_of(counts: Option<&Counts>, client: u64) -> Option<Counting<'_>>
    ensures { IfSome result (λ counting. counting.client ≡ client) }
{
    match counts {
        Some(counts) => Some(Counting { counts, client }),
        None => None,
    }
}

/// The client of this number, none of whose streams is opened yet, on the terms of its names, which stops at a failed
/// line where it has a flag, and is counted where anybody counts.
fn client_of<'a, F: NamedStreams, M: Moments>(
    alloc: Global,
    files: &F,
    client: u64,
    names: &ClientNames<'a>,
    moments: &'a M,
    stop: Option<&'a AtomicBool>,
    counts: Option<&'a Counts>,
) -> Result<NamedClient<'a, F, M>, NoMemory>
    ensures new { IfOk result (λ c. IsNewClient c.owed c.stands) }
    ensures terms { IfOk result (λ c. terms_of_client c ≡ terms_in names.now) }
{
    let streams = ToldStreams {
        streams: files.streams(names.input, names.output)?,
        faults: files.faults()?,
        client,
        input: String::from_str(alloc, names.input)?,
        output: String::from_str(alloc, names.output)?,
    };
    let counting = counting_of(counts, client);
    Ok(StreamClient::new(alloc, streams, moments, stop, names.terms, counting))
}

/// A client for each pair of names.
fn clients_of<'a, F: NamedStreams, M: Moments>(
    alloc: Global,
    files: &F,
    names: &[ClientNames<'a>],
    moments: &'a M,
    stop: Option<&'a AtomicBool>,
    counts: Option<&'a Counts>,
) -> Result<Vec<NamedClient<'a, F, M>>, NoMemory>
    ensures many { IfOk result (λ clients. length clients.items ≡ length names.now) }
    ensures new { IfOk result (λ clients. All (λ c. IsNewClient c.owed c.stands) clients.items) }
    ensures terms { IfOk result (λ clients. map terms_of_client clients.items ≡ map terms_in names.now) }
{
    let mut clients = Vec::new(alloc);
    for names in names {
        let number = clients.len() as u64 + 1;
        let client = client_of(alloc, files, number, names, moments, stop, counts)?;
        clients.push(client)?;
    }
    Ok(clients)
}

/// Who shows the boards of a service, and what it counts, in a file of this name, where there is one.
fn monitor_of<'a, F: Files, R: Clock>(
    rt: &'a R,
    alloc: Global,
    files: &'a mut F,
    board: Option<&'a str>,
    setup: &Setup,
    counts: &'a Counts,
) -> Result<Option<BoardFile<'a, F, R>>, NoMemory>
    ensures { IfOk result (λ monitor. monitors_in monitor ≡ monitors_in board.entry) }
{
    let Some(name) = board else {
        return Ok(None);
    };
    let setup = setup.copy(alloc)?;
    Ok(Some(BoardFile::new(alloc, rt, files, name, setup, counts)))
}

/// What is wrong with the names of a service, or with how many clients there are, where anything is.
fn test_names<F: Files>(alloc: Global, files: &mut F, names: ServiceNames<'_>) -> Result<(), Ending>
    ensures seats { OnOk result
        (seats_for (length names.entry.clients.now) (monitors_in names.entry.board) ≤ MAX_SEATS) }
    ensures same { F.held files.new ≡ F.held files.old }
{
    test_seats(names.clients.len() as u64, names.board)?;
    match find_clash(alloc, files, names)? {
        Some(clash) => Err(Ending::Clash(clash)),
        None => Ok(()),
    }
}

/// Whether a file for boards has refused.
fn has_refused<F: Files>(boards: &Option<ShownBoards<'_, F>>) -> bool {
    match boards {
        Some(boards) => boards.refused,
        None => false,
    }
}

/// Serves the clients of these names, whose lines are made at the moments that they tell, on a store that begins.
fn serve_as_told<F: Files + NamedStreams + Send, R: Threads + Wait + Clock + Sync>(
    machine: &Machine<'_, R>,
    names: ServiceNames<'_>,
    beginning: Beginning,
    stop_at_failure: bool,
    files: &mut F,
) -> Result<Left<F>, Ending>
    requires begun { HasBegun 0 beginning × (beginning.store.setting.edition ≡ Two) }
    requires some { (0 < length names.clients.now)
        × (seats_for (length names.clients.now) (monitors_in names.board) ≤ MAX_SEATS) }
    ensures outcome { IfOk result
        (λ left. IsServiceOf beginning.store.setting beginning.store.begun left.outcome) }
    ensures kept { IfOk result
        (λ left. AreKept (map terms_in names.entry.clients.now) left.outcome.journal.entries) }
{
    let Machine { rt, alloc, .. } = *machine;
    let failed = AtomicBool::new(false);
    let stop = if stop_at_failure { Some(&failed) } else { None };
    let counts = names.counted();
    let moments = OwnMoments { clock: rt };
    let clients = clients_of(alloc, files, names.clients, &moments, stop, counts)?;
    let monitor = monitor_of(
        rt,
        alloc,
        files,
        names.board,
        beginning.store.setup(),
        names.counts,
    )?;
    match serve(machine, beginning, clients, false, monitor) {
        Ok(
            Service {
                outcome,
                left,
                monitor,
            },
        ) => Ok(Left {
            outcome,
            clients: left,
            refused: has_refused(&monitor),
        }),
        Err(fault) => Err(ending_of_run(fault)),
    }
}

/// Serves the clients of these names, whose lines are made at the moments of a clock, on a store that begins, which it
/// rules.
fn serve_by_clock<F: Files + NamedStreams + Send, R: Threads + Wait + Clock + Sync>(
    machine: &Machine<'_, R>,
    names: ServiceNames<'_>,
    beginning: Beginning,
    stop_at_failure: bool,
    files: &mut F,
) -> Result<Left<F>, Ending>
    requires begun { HasBegun 0 beginning × (beginning.store.setting.edition ≡ Two) }
    requires some { (0 < length names.clients.now)
        × (seats_for (length names.clients.now) (monitors_in names.board) ≤ MAX_SEATS) }
    ensures outcome { IfOk result (λ left. IsServiceOf beginning.store.setting beginning.store.begun left.outcome
        × KeepsTime true left.outcome) }
    ensures kept { IfOk result
        (λ left. AreKept (map terms_in names.entry.clients.now) left.outcome.journal.entries) }
{
    let Machine { rt, alloc, .. } = *machine;
    let failed = AtomicBool::new(false);
    let stop = if stop_at_failure { Some(&failed) } else { None };
    let counts = names.counted();
    let moments = ClockMoments { clock: rt };
    let clients = clients_of(alloc, files, names.clients, &moments, stop, counts)?;
    let monitor = monitor_of(
        rt,
        alloc,
        files,
        names.board,
        beginning.store.setup(),
        names.counts,
    )?;
    match serve(machine, beginning, clients, true, monitor) {
        Ok(
            Service {
                outcome,
                left,
                monitor,
            },
        ) => Ok(Left {
            outcome,
            clients: left,
            refused: has_refused(&monitor),
        }),
        Err(fault) => Err(ending_of_run(fault)),
    }
}

/// Serves the clients of these names until all have ended, or a line has failed where it is to stop at that, at their
/// moments or the clock's. Too many clients are reported first, then names that clash, then what is wrong with the
/// configuration that was read.
fn serve_of<F: Files + NamedStreams + Send, R: Threads + Wait + Clock + Sync>(
    machine: &Machine<'_, R>,
    names: ServiceNames<'_>,
    setup: Result<Setup, Ending>,
    job: &ServeJob,
    files: &mut F,
) -> Result<Left<F>, Ending>
    requires some { 0 < length names.clients.now }
    requires newest { IfOk setup (λ setup. setup.edition ≡ Two) }
    ensures of { IfOk result (λ left. IsOkAnd setup (λ setup. IsServiceOf setup (start setup) left.outcome)) }
    ensures moments { IfOk result (λ left. KeepsTime job.now.clock left.outcome) }
    ensures kept { IfOk result
        (λ left. AreKept (map terms_in names.entry.clients.now) left.outcome.journal.entries) }
{
    test_names(machine.alloc, files, names)?;
    let beginning = Beginning::new(machine.alloc, setup?, machine.seed, false)?;
    if job.clock {
        return serve_by_clock(machine, names, beginning, job.stop_at_failure, files);
    }
    serve_as_told(machine, names, beginning, job.stop_at_failure, files)
}

/// Whether a client has ended since a line failed, its own or another's.
fn is_stopped<S: Drop>(client: &EndedClient<S>) -> bool {
    matches!(client.end, ClientEnd::Failed | ClientEnd::Stopped)
}

/// The ending of a service of which some client was not served to its end: that a line failed decides, where it was to
/// stop at that, and else the first such client.
fn test_ends<S: Drop>(clients: &[EndedClient<S>]) -> Result<(), Ending> {
    if clients.iter().any(is_stopped) {
        return Err(Ending::NotServed(ClientEnd::Failed));
    }
    for client in clients {
        match client.end {
            ClientEnd::Served => {}
            end => return Err(Ending::NotServed(end)),
        }
    }
    Ok(())
}

/// The files that what a service leaves is saved in.
fn saved_names(job: &ServeJob) -> SavedNames<'_> {
    SavedNames {
        journal: optional(&job.journal),
        image: optional(&job.save),
    }
}

/// Writes what a service has left. Its memory is left to the system, as that of a run.
fn finish_service<F: Files, O: Write>(
    alloc: Global,
    outcome: Outcome,
    job: &ServeJob,
    files: &mut F,
    out: &mut O,
) -> Result<(), Ending>
    ensures { OnOk result (Appends (O.contents out.old) (O.contents out.new) (outcome_end outcome job.now.at)) }
{
    let names = saved_names(job);
    let written = finish_outcome(&outcome, OutcomeText::Left, job.at, names, files, out);
    mem::forget(outcome);
    match written {
        Ok(()) => Ok(()),
        Err(refuser) => Err(Ending::refused(alloc, refuser, names)),
    }
}

/// How a service ends whose outcome was written: well, if each client was served to its end and no board was refused.
fn end_of<S: Drop>(clients: &[EndedClient<S>], refused: bool) -> Result<(), Ending> {
    test_ends(clients)?;
    if refused { Err(Ending::Board) } else { Ok(()) }
}

/// Serves the clients until all have ended, and only then writes: what is left goes to the output, or to the error
/// output where the output is a client's, and then the journal and the image to their files.
pub(crate) fn serve_job<F, O, E, R>(
    machine: &Machine<'_, R>,
    job: &ServeJob,
    files: &mut F,
    out: &mut O,
    err: &mut E,
) -> Result<(), Ending>
where
    F: Files + NamedStreams + Send,
    O: Write,
    E: Write,
    R: Threads + Wait + Clock + Sync,
    ensures { IfOk result (λ _. PrintsService job.now
        (seen (F.held files.old) (O.contents out.old) (E.contents err.old))
        (seen (F.held files.new) (O.contents out.new) (E.contents err.new))) }
{
    let alloc = machine.alloc;
    let ServiceConfig { setup, clients } = service_config(alloc, files, job.config.as_str());
    let clients = served(alloc, job.pairs.as_slice(), clients)?;
    let named = names_of(alloc, &clients, job.shares)?;
    let counts = Counts::new(named.len() as u64);
    let names = ServiceNames {
        config: job.config.as_str(),
        clients: &named,
        saved: saved_names(job),
        board: optional(&job.board),
        counts: &counts,
    };
    let Left {
        outcome,
        clients: ended,
        refused,
    } = serve_of(machine, names, setup, job, files)?;
    if is_output_taken(&clients) {
        finish_service(alloc, outcome, job, files, err)?;
        return end_of(&ended, refused);
    }
    finish_service(alloc, outcome, job, files, out)?;
    end_of(&ended, refused)
}
