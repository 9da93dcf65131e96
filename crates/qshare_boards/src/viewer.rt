//! The reading side of the boards.
ghost use Rattle.std.specs.Prelude.{◌≡◌, Err, IfOk};
ghost use mathlib.Core.List.{IsPrefix};
ghost use Rattle.left_right.specs.Sides.{view as known};
ghost use Rattle.qplain_laws.specs.Beginnings.{IsStateOf};
ghost use Rattle.qshare_boards.specs.Boards.{IsHistoryOf, shown_of};
ghost use Rattle.qshare_boards.specs.Looks.{IsBoardAnswer, IsLook, IsRecordAnswer};
ghost use Rattle.qshare_boards.specs.Whole.{IsWhole};

use crate::publisher::Publisher;
use crate::rule::{Publishing, SeenHistory, Sees};
use crate::sheet::Sheet;
use core::mem::replace_with;
use left_right::reader::Reader;
use qplain::{Board, LookFault, NoMemory};
use qrules::{BoardRow, Kind};
use qshare_history::{Prefix, StoreId};
use std::alloc::Global;
use std::marker::Model;
use std::sync::Wait;

pub(crate) type BoardReader<S> = Reader<Sheet, SeenHistory, Publishing<S>>;

/// The reading side of the boards, for one reader. Contracts see the history whose board it was shown last, or what was
/// published when it was made.
#[derive(Drop)]
pub struct Viewer<S: StoreId> {
    alloc: Global,
    prefix: Prefix,
    reader: BoardReader<S>,
}

impl<S: StoreId> Model for Viewer<S> {
    ghost use Rattle.std.specs.Prelude.{◌≡◌, List};
    ghost use Rattle.left_right.specs.Sides.{view as known};
    ghost use Rattle.qplain.specs.declared.entry.Entry.{Entry};
    ghost use Rattle.qplain_laws.specs.Beginnings.{IsStateOf};

    ghost Value = { List Entry };

    ghost view = { λ v. v.prefix.entries };

    ghost invariant = { λ v. IsStateOf S.id.setting S.id.begun × (v.prefix.history ≡ S.id.history)
        × ((known v.reader.place).seen ≡ v.prefix.entries) };
}

/// What somebody has seen after a look, and what was shown of the board.
#[derive(Drop)]
pub struct Looked<T> {
    pub prefix: Prefix,
    pub shown: Result<T, LookFault>,
}

/// A look of a reader, which has itself seen this much of the history after it.
struct AfterLook<T> {
    prefix: Prefix,
    looked: Looked<T>,
}

/// Who looks: a reader that has seen so much, for somebody who has seen so much.
struct Looker {
    prefix: Prefix,
    since: Prefix,
}

/// No board was handed out.
fn no_board<T>(prefix: Prefix, since: Prefix) -> AfterLook<T>
    ensures prefix { result.prefix ≡ prefix }
    ensures since { result.looked ≡ record { prefix = since; shown = Err LookFault.NoBoard } }
{
    AfterLook {
        prefix,
        looked: Looked {
            prefix: since,
            shown: Err(LookFault::NoBoard),
        },
    }
}

/// This is what is shown of the board of this history, which is then seen.
fn shown_to<T>(prefix: Prefix, shown: Result<T, LookFault>) -> AfterLook<T>
    ensures prefix { result.prefix ≡ prefix }
    ensures looked { result.looked ≡ record { prefix = prefix; shown = shown } }
{
    AfterLook {
        looked: Looked {
            prefix: prefix.again(),
            shown,
        },
        prefix,
    }
}

/// Copies the board that is handed out, where it has all that was seen.
fn look<S: StoreId>(
    reader: BoardReader<S>,
    with: (Global, Looker),
) -> (BoardReader<S>, AfterLook<Board>)
    requires reader { (known reader.place).seen ≡ with.1.prefix.entries }
    requires prefix { with.1.prefix.history ≡ S.id.history }
    requires since { IsHistoryOf S.id with.1.since }
    ensures reader { ((known result.0.place).seen ≡ result.1.prefix.entries)
        × (result.1.prefix.history ≡ S.id.history) × IsPrefix with.1.prefix.entries result.1.prefix.entries }
    ensures look { IsLook S.id with.1.since result.1.looked.prefix result.1.looked.shown }
    ensures board { IsBoardAnswer S.id.begun result.1.looked.prefix.entries result.1.looked.shown }
{
    let (alloc, Looker { prefix, since }) = with;
    match reader.enter_as::<Sees<S>>() {
        Ok(reading) => {
            let sheet = reading.get();
            let prefix = sheet.prefix.again();
            if !prefix.begins_with(&since) {
                return (reading.leave(), no_board(prefix, since));
            }
            let shown = sheet.board(alloc);
            (reading.leave(), shown_to(prefix, shown))
        }
        Err(back) => (back, no_board(prefix, since)),
    }
}

/// Copies one row of the board that is handed out, where it has all that was seen.
fn look_up<S: StoreId>(
    reader: BoardReader<S>,
    with: (Kind, u32, Looker),
) -> (BoardReader<S>, AfterLook<(u64, BoardRow)>)
    requires reader { (known reader.place).seen ≡ with.2.prefix.entries }
    requires prefix { with.2.prefix.history ≡ S.id.history }
    requires since { IsHistoryOf S.id with.2.since }
    ensures reader { ((known result.0.place).seen ≡ result.1.prefix.entries)
        × (result.1.prefix.history ≡ S.id.history) × IsPrefix with.2.prefix.entries result.1.prefix.entries }
    ensures look { IsLook S.id with.2.since result.1.looked.prefix result.1.looked.shown }
    ensures record { IsRecordAnswer S.id.begun result.1.looked.prefix.entries with.0 with.1
        result.1.looked.shown }
{
    let (kind, id, Looker { prefix, since }) = with;
    match reader.enter_as::<Sees<S>>() {
        Ok(reading) => {
            let sheet = reading.get();
            let prefix = sheet.prefix.again();
            if !prefix.begins_with(&since) {
                return (reading.leave(), no_board(prefix, since));
            }
            let shown = sheet.record(kind, id);
            (reading.leave(), shown_to(prefix, shown))
        }
        Err(back) => (back, no_board(prefix, since)),
    }
}

impl<S: StoreId> Viewer<S> {
    /// A reader that was told of all that is published. Err where no place is free or memory is wanting; then nothing
    /// was made.
    pub fn new<R: Wait + Drop>(
        alloc: Global,
        publisher: &mut Publisher<S, R>,
        prefix: Prefix,
    ) -> Result<Viewer<S>, NoMemory>
        requires beginning { IsStateOf S.id.setting S.id.begun }
        requires history { prefix.history ≡ S.id.history }
        requires published { publisher.old ≡ prefix.entries }
        ensures publisher { publisher.new ≡ publisher.old }
    {
        let reader = publisher.reader()?;
        Ok(Viewer {
            alloc,
            prefix,
            reader,
        })
    }

    /// The board that is published now, for somebody who has seen so much. It takes no lock, and waits for nobody.
    ///
    /// NoBoard where none was handed out that has all that was seen, OutOfMemory where its copy found no memory. ESRCH
    /// never comes.
    pub fn board(&mut self, since: Prefix) -> Looked<Board>
        requires { IsHistoryOf S.id since }
        ensures look { IsLook S.id since result.prefix result.shown }
        ensures board { IsBoardAnswer S.id.begun result.prefix.entries result.shown }
        ensures whole { IfOk result.shown (IsWhole S.id.setting) }
    {
        let prefix = self.prefix.again();
        let with = (self.alloc, Looker { prefix, since });
        let AfterLook { prefix, looked } = replace_with(
            &mut self.reader,
            with,
            |reader, with| look::<S>(reader, with),
        );
        self.prefix = prefix;
        looked
    }

    /// The row of a principal on the board that is published now, under the board's version, for somebody who has
    /// seen so much. It takes no lock and no memory, and waits for nobody.
    ///
    /// NoBoard where none was handed out that has all that was seen, ESRCH where it has no such row.
    pub fn record(&mut self, kind: Kind, id: u32, since: Prefix) -> Looked<(u64, BoardRow)>
        requires { IsHistoryOf S.id since }
        ensures look { IsLook S.id since result.prefix result.shown }
        ensures record { IsRecordAnswer S.id.begun result.prefix.entries kind id result.shown }
        ensures whole { IsWhole S.id.setting (shown_of S.id.begun result.prefix.entries) }
    {
        let prefix = self.prefix.again();
        let with = (kind, id, Looker { prefix, since });
        let AfterLook { prefix, looked } = replace_with(
            &mut self.reader,
            with,
            |reader, with| look_up::<S>(reader, with),
        );
        self.prefix = prefix;
        looked
    }
}
