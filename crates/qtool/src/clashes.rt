//! Names of a service that must not be of one file, or of one stream.
ghost use Rattle.std.specs.Prelude.{◌≡◌};

use crate::client_names::ClientNames;
use crate::standard::STANDARD;
use crate::{Files, SavedNames};
use qplain::NoMemory;
use qtext_client::Counts;
use std::alloc::Global;

/// What a job has a name for. Scripts and clients count from 1.
#[derive(Clone, Copy, Debug, PartialEq, Eq)]
pub(crate) enum Role {
    Config,
    Script(u64),
    Input(u64),
    Output(u64),
    Journal,
    /// A journal that is read.
    Played,
    Image,
    Board,
    /// Standard output, where what is left of a service goes.
    Standard,
}

/// Why two names must not stand beside each other.
#[derive(Clone, Copy, Debug, PartialEq, Eq)]
pub(crate) enum Clash {
    /// The first would be written over the second.
    Over(Role, Role),
    /// Both would be one stream.
    Stream(Role, Role),
}

/// A name, and what it is of.
#[derive(Clone, Copy)]
struct Named<'a> {
    role: Role,
    name: &'a str,
}

impl Named<'_> {
    fn is_written(&self) -> bool {
        !matches!(self.role, Role::Config | Role::Script(_) | Role::Input(_))
    }

    fn is_standard(&self) -> bool {
        self.name == STANDARD
    }
}

/// Whether both are one stream: standard input, or standard output, or that of two clients.
fn are_one_stream(one: &Named<'_>, other: &Named<'_>) -> bool {
    if one.name != other.name {
        return false;
    }
    if one.is_standard() {
        return one.is_written() == other.is_written();
    }
    match (one.role, other.role) {
        (Role::Input(_), Role::Input(_)) | (Role::Output(_), Role::Output(_)) => true,
        (Role::Input(client), Role::Output(further))
        | (Role::Output(client), Role::Input(further)) => client != further,
        _ => false,
    }
}

/// Whether both are names of one file. The streams of one client may have one name, as those of a terminal.
fn are_one_file<F: Files>(files: &mut F, one: &Named<'_>, other: &Named<'_>) -> bool
    ensures { F.held files.new ≡ F.held files.old }
{
    if one.is_standard() || other.is_standard() {
        return false;
    }
    let are_streams = matches!(
        (one.role, other.role),
        (Role::Input(_), Role::Output(_)) | (Role::Output(_), Role::Input(_))
    );
    if one.name == other.name && !are_streams {
        return true;
    }
    files.is_same(one.name, other.name)
}

/// Why these two must not stand beside each other, where they must not.
fn clash_of<F: Files>(files: &mut F, one: &Named<'_>, other: &Named<'_>) -> Option<Clash>
    ensures { F.held files.new ≡ F.held files.old }
{
    if are_one_stream(one, other) {
        return Some(Clash::Stream(one.role, other.role));
    }
    if !one.is_written() && !other.is_written() {
        return None;
    }
    if !are_one_file(files, one, other) {
        return None;
    }
    if other.is_written() {
        Some(Clash::Over(other.role, one.role))
    } else {
        Some(Clash::Over(one.role, other.role))
    }
}

/// The first clash of a name with one before it, or with standard output.
fn clash_with<F: Files>(files: &mut F, before: &[Named<'_>], named: &Named<'_>) -> Option<Clash>
    ensures { F.held files.new ≡ F.held files.old }
{
    for other in before {
        if let Some(clash) = clash_of(files, other, named) {
            return Some(clash);
        }
    }
    if !named.is_written() || named.is_standard() {
        return None;
    }
    if files.is_output(named.name) {
        return Some(Clash::Over(named.role, Role::Standard));
    }
    None
}

/// What a service reads and writes, by name, and where it counts.
#[derive(Clone, Copy)]
pub(crate) struct ServiceNames<'a> {
    pub(crate) config: &'a str,
    pub(crate) clients: &'a [ClientNames<'a>],
    pub(crate) saved: SavedNames<'a>,
    pub(crate) board: Option<&'a str>,
    /// Where what its clients are told is counted, for the board.
    pub(crate) counts: &'a Counts,
}

impl<'a> ServiceNames<'a> {
    /// Where the clients' lines are counted, where anybody is to see it.
    pub(crate) fn counted(&self) -> Option<&'a Counts> {
        if self.board.is_some() {
            Some(self.counts)
        } else {
            None
        }
    }
}

/// All names of a service, each with what it is of.
fn all_named<'a>(alloc: Global, names: ServiceNames<'a>) -> Result<Vec<Named<'a>>, NoMemory> {
    let mut all = Vec::new(alloc);
    all.push(Named {
        role: Role::Config,
        name: names.config,
    })?;
    let mut client = 0u64;
    for ClientNames { input, output, .. } in names.clients {
        client += 1;
        all.push(Named {
            role: Role::Input(client),
            name: input,
        })?;
        all.push(Named {
            role: Role::Output(client),
            name: output,
        })?;
    }
    let files = [
        (Role::Journal, names.saved.journal),
        (Role::Image, names.saved.image),
        (Role::Board, names.board),
    ];
    for (role, name) in files {
        if let Some(name) = name {
            all.push(Named { role, name })?;
        }
    }
    Ok(all)
}

/// The first name of a service that must not stand beside one before it, or beside standard output, where there is one.
pub(crate) fn find_clash<F: Files>(
    alloc: Global,
    files: &mut F,
    names: ServiceNames<'_>,
) -> Result<Option<Clash>, NoMemory>
    ensures { F.held files.new ≡ F.held files.old }
{
    let all = all_named(alloc, names)?;
    for count in 0..all.len() {
        let clash = clash_with(files, &all[..count], &all[count]);
        if clash.is_some() {
            return Ok(clash);
        }
    }
    Ok(None)
}
