//! On which terms a client is served that is bound to a caller.
ghost use Rattle.std.specs.Prelude.{◌≡◌, ◌≤◌, ◌-◌, ◌↔◌, All, IfSome, IsNone, length, map, option_map, sum, true};
ghost use Rattle.qplain.specs.Calls.{paths_of};
ghost use Rattle.qtext_client.specs.Terms.{MayNotWrite, MayWrite, binding_of, bytes_answered, bytes_written, components};
ghost use Rattle.qtext_client.specs.Terms.{allowance_after};

use crate::response::BadLine;
use qplain::{Call, CallPaths, Cred, Line, Receipt, Reply};
use qrun_client::Answer;

/// What is left of a client's share of a service: so many of its lines are answered, and none once its lines and the
/// answers to them hold so many bytes.
#[derive(Clone, Copy, Debug, PartialEq, Eq)]
pub struct Allowance {
    pub calls: u64,
    pub bytes: u64,
}

/// The terms of a client that is bound to a caller.
#[derive(Clone, Copy, Debug)]
pub struct Terms<'a> {
    /// Each line that it hands out is this one's.
    pub caller: &'a Cred,
    /// No path of such a line has more components.
    pub depth: u64,
    /// What it may still take.
    pub share: Allowance,
    /// How many turns a second it has at least one of.
    pub rate: u64,
}

impl Allowance {
    /// What is left once this call was answered so.
    pub(crate) fn after(self, call: &Call, answer: &Answer) -> Allowance
        ensures { result ≡ allowance_after self call.now answer.now }
    {
        let bytes = less_paths(self.bytes, call)
            .saturating_sub(bytes_written(call))
            .saturating_sub(bytes_answered(answer));
        Allowance {
            calls: self.calls.saturating_sub(1),
            bytes,
        }
    }
}

/// So many bytes without those of a call's paths.
fn less_paths(bytes: u64, call: &Call) -> u64
    ensures { result ≡ bytes - sum (map (λ path. length path) (paths_of call.now)) }
{
    match call.paths() {
        CallPaths::None => bytes,
        CallPaths::One(path) => bytes.saturating_sub(path.bytes().len() as u64),
        CallPaths::Two(from, to) => bytes
            .saturating_sub(from.bytes().len() as u64)
            .saturating_sub(to.bytes().len() as u64),
    }
}

/// How many bytes a call writes.
fn bytes_written(call: &Call) -> u64
    ensures { result ≡ bytes_written call.now }
{
    match call {
        Call::Write { bytes, .. } => bytes.len(),
        _ => 0,
    }
}

/// How many bytes an answer has that were read.
fn bytes_answered(answer: &Answer) -> u64
    ensures { result ≡ bytes_answered answer.now }
{
    match answer {
        Ok(
            Receipt {
                reply: Reply::Bytes(bytes),
                ..
            },
        ) => bytes.as_slice().len() as u64,
        _ => 0,
    }
}

/// How many bytes a call writes, and its answer has that were read.
pub(crate) fn bytes_moved(call: &Call, answer: &Answer) -> u64 {
    bytes_written(call).saturating_add(bytes_answered(answer))
}

/// How many components a path has.
fn components(path: &[u8]) -> u64
    ensures { result ≡ components path.now }
{
    path.iter().filter(|byte| **byte == b'/').count() as u64
}

/// Whether no path of a call has more components.
fn is_within(depth: u64, call: &Call) -> bool
    ensures { result ≡ true ↔ All (λ path. components path ≤ depth) (paths_of call.now) }
{
    match call.paths() {
        CallPaths::None => true,
        CallPaths::One(path) => components(path.bytes()) <= depth,
        CallPaths::Two(from, to) => {
            components(from.bytes()) <= depth && components(to.bytes()) <= depth
        }
    }
}

/// Why a client on these terms may not write a line, where it may not.
pub(crate) fn fault_of(terms: Option<Terms<'_>>, line: &Line) -> Option<BadLine>
    ensures may { IsNone result → MayWrite (option_map binding_of terms.entry) line.now }
    ensures fault { IfSome result (MayNotWrite (option_map binding_of terms.entry) line.now) }
{
    let terms = terms?;
    if line.cred != *terms.caller {
        return Some(BadLine::OtherCaller);
    }
    if is_within(terms.depth, &line.call) {
        None
    } else {
        Some(BadLine::Depth)
    }
}
