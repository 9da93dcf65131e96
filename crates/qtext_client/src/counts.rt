//! What a service counts, in one place for all its clients.
ghost use Rattle.std.specs.Prelude.{◌≡◌, ◌+◌, ◌<◌, IfSome};
ghost use Rattle.qtext_metrics.specs.declared.service_counts.TheConstants.{CLIENTS};
ghost use Rattle.qtext_client.specs.Counted.{fault_of_line, is_call, mishap_in, refusal_in};

use crate::response::{BadLine, Response};
use qplain::{CallFault, Reply};
use qtext_metrics::{CLIENTS, LineFault, MISHAPS, Mishap, ServiceCounts};
use std::array;
use std::sync::atomic::{AtomicU64, Ordering};

/// What a service counts while it goes on: how often each mishap was met, and how many calls each client has made.
#[derive(Drop)]
pub struct Counts {
    clients: u64,
    mishaps: [AtomicU64; MISHAPS],
    calls: [AtomicU64; CLIENTS],
}

/// Where the lines of one client are counted.
#[derive(Clone, Copy)]
pub struct Counting<'a> {
    pub counts: &'a Counts,
    /// The number of the client, from 1.
    pub client: u64,
}

/// As what it is counted that a line is at fault.
fn fault_of_line(bad: BadLine) -> LineFault
    ensures { result ≡ fault_of_line bad }
{
    match bad {
        BadLine::Text(_) => LineFault::Text,
        BadLine::Length => LineFault::Length,
        BadLine::OtherCaller => LineFault::OtherCaller,
        BadLine::Depth => LineFault::Depth,
        BadLine::Share => LineFault::Share,
    }
}

/// The refusal that a reply is, where it is one.
fn refusal_in(reply: &Reply) -> Option<Mishap>
    ensures { result ≡ refusal_in reply.now }
{
    match reply {
        Reply::Refused(refusal) => Some(Mishap::Refused(*refusal)),
        _ => None,
    }
}

/// What a line came to that did nothing, where it did nothing.
fn mishap_in(response: &Response) -> Option<Mishap>
    ensures { result ≡ mishap_in response.now }
{
    match response {
        Response::Answer(Ok(receipt)) => refusal_in(&receipt.reply),
        Response::Answer(Err(failure)) => Some(Mishap::Failed(*failure)),
        Response::Fault(bad) => Some(Mishap::Faulty(fault_of_line(*bad))),
        Response::NoMemory => Some(Mishap::Failed(CallFault::OutOfMemory)),
    }
}

/// Whether a line was a call that was made, also one that was refused.
fn is_call(response: &Response) -> bool
    ensures { result ≡ is_call response.now }
{
    matches!(response, Response::Answer(Ok(_)))
}

/// Where the calls of the client of this number are counted.
fn place_of(client: u64) -> Option<usize>
    ensures { IfSome result (λ place. (place + 1 ≡ client) × (place < CLIENTS)) }
{
    let place = client.checked_sub(1)? as usize;
    if place < CLIENTS { Some(place) } else { None }
}

impl Counts {
    /// Of a service of so many clients, at most 16, none of which was told anything.
    pub fn new(clients: u64) -> Counts
        ensures { result.clients ≡ clients }
    {
        Counts {
            clients,
            mishaps: array::from_fn(|_| AtomicU64::new(0)),
            calls: array::from_fn(|_| AtomicU64::new(0)),
        }
    }

    /// Adds what the client of this number is told of a line.
    fn add(&self, client: u64, response: &Response) {
        if let Some(mishap) = mishap_in(response) {
            self.mishaps[mishap.place()].fetch_add(1, Ordering::SeqCst);
        }
        if is_call(response)
            && let Some(place) = place_of(client)
        {
            self.calls[place].fetch_add(1, Ordering::SeqCst);
        }
    }

    /// What it has counted by now, beside this moment of the last call.
    pub fn counted(&self, last_call: u64) -> ServiceCounts
        ensures { result.last_call ≡ last_call }
    {
        let mut mishaps = [0; MISHAPS];
        for (place, count) in self.mishaps.iter().enumerate() {
            mishaps[place] = count.load(Ordering::SeqCst);
        }
        let mut calls = [None; CLIENTS];
        for (place, count) in self.calls.iter().enumerate() {
            if (place as u64) < self.clients {
                calls[place] = Some(count.load(Ordering::SeqCst));
            }
        }
        ServiceCounts {
            mishaps,
            calls,
            last_call,
        }
    }
}

/// Counts what a client is told of a line, where anybody counts.
pub(crate) fn count(counting: Option<Counting<'_>>, response: &Response) {
    if let Some(Counting { counts, client }) = counting {
        counts.add(client, response);
    }
}
