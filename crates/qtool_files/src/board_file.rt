//! The file in which a monitor reads the quotas of a service.
ghost use Rattle.std.specs.Prelude.{◌≡◌, None, false};

use crate::Files;
use crate::counted_board::text_of;
use crate::seen_counts::SeenCounts;
use qplain::{Board, Setup};
use qrun::Monitor;
use qtext_client::Counts;
use std::alloc::Global;
use std::thread;
use std::time::{Clock, Duration};

/// As long at least, in milliseconds, a board stands in its file before the next takes its place.
const PAUSE: u64 = 100;

/// For so long, in milliseconds, workers are given way to before a board that is due is published without them.
const MOMENT: u64 = 1;

/// A file that holds the board shown last, and behind it what the service has counted, whole at any time. Where it
/// refuses once, no further board is written.
#[derive(Drop)]
pub struct BoardFile<'a, F: Files, R: Clock> {
    alloc: Global,
    clock: &'a R,
    files: &'a mut F,
    name: &'a str,
    setup: Setup,
    counts: SeenCounts<'a>,
    /// The text of the board shown last.
    shown: Option<Vec<u8>>,
    refused: bool,
}

/// What is left of a file for boards: the files, and whether it has refused, or the last board is missing.
#[derive(Drop)]
pub struct ShownBoards<'a, F: Files> {
    pub files: &'a mut F,
    pub refused: bool,
}

impl<'a, F: Files, R: Clock> BoardFile<'a, F, R> {
    /// A file of this name that has shown no board. Boards are spelled with the names of the setup, what stands behind
    /// them was counted there, and it waits by the clock.
    pub fn new(
        alloc: Global,
        clock: &'a R,
        files: &'a mut F,
        name: &'a str,
        setup: Setup,
        counts: &'a Counts,
    ) -> BoardFile<'a, F, R>
        ensures { (result.files.ghost_name ≡ files.entry.ghost_name) × (F.held result.files.now ≡ F.held files.old)
            × (result.name.now ≡ name.now) × (result.setup ≡ setup) × (result.shown ≡ None)
            × (result.refused ≡ false) }
    {
        BoardFile {
            alloc,
            clock,
            files,
            name,
            setup,
            counts: SeenCounts::new(counts),
            shown: None,
            refused: false,
        }
    }
}

impl<'a, F: Files + Send, R: Clock> Monitor for BoardFile<'a, F, R> {
    ghost use Rattle.std.specs.Prelude.{option_map};
    ghost use Rattle.qtool_files.specs.BoardFiles.{IsBoardFile};

    type Left = ShownBoards<'a, F>;

    ghost sees = { λ f boards left. IsBoardFile f.setup f.name.now
        (record { refused = f.refused; shown = option_map (λ t. t.items) f.shown; held = F.held f.files.now })
        boards left.refused (F.held left.files.now) };

    /// Writes the board shown last once more, where none is new and something was counted.
    fn wait(&mut self) {
        if !self.refused
            && self.counts.is_due(self.clock)
            && let Some(text) = &self.shown
        {
            match self.files.show_board(self.name, text, &self.counts.last) {
                Ok(()) => {}
                Err(_) => self.refused = true,
            }
        }
        thread::sleep(self.clock, Duration::from_millis(PAUSE));
    }

    fn give_way(&mut self) {
        thread::sleep(self.clock, Duration::from_millis(MOMENT));
    }

    fn miss(&mut self) {
        self.refused = true;
    }

    /// Writes the board as a draft, and puts that in the place of the board before.
    fn show(&mut self, board: &Board) {
        if self.refused {
            return;
        }
        let Ok(text) = text_of(self.alloc, &self.setup, board) else {
            self.refused = true;
            return;
        };
        self.counts.look_for_board(self.clock);
        match self.files.show_board(self.name, &text, &self.counts.last) {
            Ok(()) => self.shown = Some(text),
            Err(_) => self.refused = true,
        }
    }

    /// Writes the board shown last once more, where something was counted since.
    fn end(self) -> ShownBoards<'a, F> {
        let BoardFile {
            clock,
            files,
            name,
            mut counts,
            shown,
            refused,
            ..
        } = self;
        if refused || !counts.look(clock) {
            return ShownBoards { files, refused };
        }
        let Some(text) = shown else {
            return ShownBoards { files, refused };
        };
        match files.show_board(name, &text, &counts.last) {
            Ok(()) => ShownBoards { files, refused },
            Err(_) => ShownBoards {
                files,
                refused: true,
            },
        }
    }
}
