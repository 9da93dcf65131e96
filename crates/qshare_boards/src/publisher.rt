//! The writing side of the boards.
ghost use Rattle.std.specs.Prelude.{◌≡◌, ◌<◌, ◌^◌, ◌∷◌, [], drop, IfOk};
ghost use Rattle.left_right.specs.Sides.{view as known};
ghost use Rattle.qshare_history.specs.Histories.{recorded};
ghost use Rattle.qshare_boards.specs.Boards.{BringsOn, changed_by, shown_of};
ghost use Rattle.qshare_boards.specs.Sheets.{IsPublished, LeadsTo};

use crate::board_change::BoardChange;
use crate::rule::{Notes, Publishing, SeenHistory, Sees};
use crate::sheet::{Batch, Sheet};
use crate::viewer::BoardReader;
use core::mem::replace_with;
use left_right::writer::Writer;
use qplain::{Board, NoMemory};
use qshare_history::{Prefix, StoreId};
use std::alloc::Global;
use std::marker::Model;
use std::sync::Wait;

pub(crate) type BoardWriter<S> = Writer<Sheet, Batch, SeenHistory, Publishing<S>>;

/// A writer with the handle by which its drop waits for the readers.
struct Pen<S: StoreId, R: Wait + Drop> {
    writer: BoardWriter<S>,
    rt: R,
}

impl<S: StoreId, R: Wait + Drop> Drop for Pen<S, R> {
    fn drop(self) {
        let Self { writer, rt } = self;
        drop(writer.take(&rt));
    }
}

/// The writing side of the boards. Contracts see the history whose board is published.
///
/// A drop of it waits until no reader looks at a board.
#[derive(Drop)]
pub struct Publisher<S: StoreId, R: Wait + Drop> {
    pen: Pen<S, R>,
}

impl<S: StoreId, R: Wait + Drop> Model for Publisher<S, R> {
    ghost use Rattle.std.specs.Prelude.{drop, List};
    ghost use Rattle.left_right.specs.Sides.{view as known};
    ghost use Rattle.qplain.specs.declared.entry.Entry.{Entry};
    ghost use Rattle.qshare_boards.specs.Sheets.{IsPublished};

    ghost Value = { List Entry };

    ghost view = { λ p. p.pen.writer.desk.shown.value.prefix.entries };

    ghost invariant = { λ p. IsPublished S.id p.pen.writer.desk.shown.value (known p.pen.writer.desk.place).seen
        (drop p.pen.writer.behind p.pen.writer.log.items) };
}

/// Puts a batch into the log of `left_right`, which has room for it: the one batch that may stand there beside it has
/// made room for two. No clause says so; the loop ends at its first turn.
fn put<S: StoreId, R: Wait>(writer: &mut BoardWriter<S>, rt: &R, batch: Batch)
    requires { drop writer.old.behind writer.old.log.items ≡ [] }
    ensures desk { writer.new.desk ≡ writer.old.desk }
    ensures pending { drop writer.new.behind writer.new.log.items ≡ batch ∷ [] }
{
    let mut batch = batch;
    for _ in rt.forever() {
        match writer.append(batch) {
            Ok(()) => return,
            Err(back) => batch = back,
        }
    }
    unreachable!()
}

/// A writer that has published what waits in the log, with which the board is that of this history. It stands in line,
/// so that `left_right` does not move the writer into this call and back.
#[inline(always)]
fn shown<S: StoreId, R: Wait>(writer: BoardWriter<S>, rt: &R, prefix: &Prefix) -> BoardWriter<S>
    requires leads { LeadsTo S.id writer.desk.shown.value (drop writer.behind writer.log.items) prefix.now }
    ensures published { IsPublished S.id result.desk.shown.value (known result.desk.place).seen
        (drop result.behind result.log.items) }
    ensures prefix { result.desk.shown.value.prefix ≡ prefix.now }
{
    let _prefix = prefix;
    writer.publish_as::<Sees<S>, R>(rt).0
}

/// Publishes what waits in the log, with which the board is that of this history.
fn show<S: StoreId, R: Wait>(rt: &R, writer: &mut BoardWriter<S>, prefix: &Prefix)
    requires { LeadsTo S.id writer.old.desk.shown.value (drop writer.old.behind writer.old.log.items) prefix.now }
    ensures published { IsPublished S.id writer.new.desk.shown.value (known writer.new.desk.place).seen
        (drop writer.new.behind writer.new.log.items) }
    ensures prefix { writer.new.desk.shown.value.prefix ≡ prefix.now }
{
    replace_with(writer, (rt, prefix), |writer, (rt, prefix)| {
        (shown::<S, R>(writer, rt, prefix), ())
    });
}

/// Publishes a batch, with which the board is that of the batch's history.
fn publish_batch<S: StoreId, R: Wait>(rt: &R, writer: &mut BoardWriter<S>, batch: Batch)
    requires published { IsPublished S.id writer.old.desk.shown.value (known writer.old.desk.place).seen
        (drop writer.old.behind writer.old.log.items) }
    requires brings { BringsOn S.id writer.old.desk.shown.value.prefix.entries batch.change batch.prefix }
    ensures published { IsPublished S.id writer.new.desk.shown.value (known writer.new.desk.place).seen
        (drop writer.new.behind writer.new.log.items) }
    ensures prefix { writer.new.desk.shown.value.prefix ≡ batch.prefix }
{
    let prefix = batch.prefix.again();
    put::<S, R>(writer, rt, batch);
    show::<S, R>(rt, writer, &prefix);
}

/// A writer through whose log one batch has gone, so that it has room for all later ones. An Err leaves nothing made.
fn primed<S: StoreId, R: Wait>(
    writer: BoardWriter<S>,
    rt: &R,
    batch: Batch,
) -> Result<BoardWriter<S>, NoMemory>
    requires published { IsPublished S.id writer.desk.shown.value (known writer.desk.place).seen
        (drop writer.behind writer.log.items) }
    requires brings { BringsOn S.id writer.desk.shown.value.prefix.entries batch.change batch.prefix }
    ensures published { IfOk result (λ w. IsPublished S.id w.desk.shown.value (known w.desk.place).seen
        (drop w.behind w.log.items)) }
    ensures prefix { IfOk result (λ w. w.desk.shown.value.prefix ≡ batch.prefix) }
{
    let prefix = batch.prefix.again();
    let mut writer = writer;
    match writer.append(batch) {
        Ok(()) => {
            show::<S, R>(rt, &mut writer, &prefix);
            Ok(writer)
        }
        Err(_) => {
            drop(writer.take(rt));
            Err(NoMemory)
        }
    }
}

/// The change of a publication that brings nothing.
fn no_change(alloc: Global, board: &Board) -> BoardChange
    ensures { changed_by board.now result ≡ board.now }
{
    BoardChange {
        version: board.version,
        rows: Vec::new(alloc),
        blocks: board.blocks,
        inodes: board.inodes,
    }
}

/// A writer with N places for readers, by which this board is published.
fn first_writer<S: StoreId, R: Wait>(
    alloc: Global,
    rt: &R,
    board: &Board,
    prefix: &Prefix,
    readers: usize,
) -> Result<BoardWriter<S>, NoMemory>
    requires prefix { prefix.now ≡ recorded S.id.history [] }
    requires board { board.now ≡ shown_of S.id.begun [] }
    requires readers { (0 < readers) × (readers < 2 ^ 32) }
    ensures published { IfOk result (λ w. IsPublished S.id w.desk.shown.value (known w.desk.place).seen
        (drop w.behind w.log.items)) }
    ensures prefix { IfOk result (λ w. w.desk.shown.value.prefix ≡ prefix.now) }
{
    let first = Sheet::with(alloc, board, prefix.again())?;
    let second = Sheet::with(alloc, board, prefix.again())?;
    let batch = Batch {
        change: no_change(alloc, board),
        prefix: prefix.again(),
    };
    let writer: BoardWriter<S> = Writer::new(alloc, first, second, readers)?;
    primed(writer, rt, batch)
}

impl<S: StoreId, R: Wait + Drop> Publisher<S, R> {
    /// Publishes the board of a new store, with N places for readers. An Err, which is out of memory, leaves
    /// nothing made.
    pub fn new(
        alloc: Global,
        rt: R,
        board: &Board,
        prefix: &Prefix,
        readers: usize,
    ) -> Result<Publisher<S, R>, NoMemory>
        requires prefix { prefix.now ≡ recorded S.id.history [] }
        requires board { board.now ≡ shown_of S.id.begun [] }
        requires readers { (0 < readers) × (readers < 2 ^ 32) }
        ensures { IfOk result (λ p. p ≡ []) }
    {
        let writer = first_writer::<S, R>(alloc, &rt, board, prefix, readers)?;
        Ok(Publisher {
            pen: Pen { writer, rt },
        })
    }

    /// Publishes the board of this history, to which this change leads.
    ///
    /// It waits for readers that still look at the board before the last one.
    pub fn publish(&mut self, change: BoardChange, prefix: Prefix)
        requires { BringsOn S.id self.old change prefix }
        ensures { self.new ≡ prefix.entries }
    {
        let batch = Batch { change, prefix };
        publish_batch(&self.pen.rt, &mut self.pen.writer, batch);
    }

    /// A reader that has just sat down, and was told of what is published. Err where no place is free or memory is
    /// wanting; then nothing was made.
    pub(crate) fn reader(&mut self) -> Result<BoardReader<S>, NoMemory>
        ensures same { self.new ≡ self.old }
        ensures seen { IfOk result (λ r. (known r.place).seen ≡ self.old) }
    {
        let mut reader = self.pen.writer.factory().reader()?;
        reader.learn::<Notes>(self.pen.writer.tell::<Notes>());
        Ok(reader)
    }
}
