//! The lines of a script, which go as they are played.
ghost use Rattle.std.specs.Prelude.{◌≡◌, ◌<◌, Some, drop, length, slice_get};

use qplain::Line;
use std::marker::Model;

/// So many lines at least give their memory back at once.
const GIVEN_BACK: usize = 1_024;

/// The lines of a script that are still to be played. Contracts see them.
#[derive(Drop)]
pub(crate) struct Lines {
    /// They stand the other way round, and behind them those that were played and have not gone yet.
    left: Vec<Line>,
    played: usize,
}

impl Model for Lines {
    ghost use Rattle.std.specs.Prelude.{◌-◌, ◌≤◌, List, reverse, take, vec_len};
    ghost use Rattle.qplain.specs.declared.line.Line.{Line};

    ghost Value = { List Line };

    ghost view = { λ l. reverse (take (vec_len l.left - l.played) l.left.items) };

    ghost invariant = { λ l. l.played ≤ vec_len l.left };
}

impl Lines {
    /// These lines, which are turned round where they stand.
    pub(crate) fn new(lines: Vec<Line>) -> Lines
        ensures { result ≡ lines.items }
    {
        let mut left = lines;
        left.reverse();
        Lines { left, played: 0 }
    }

    /// How many there are.
    #[inline(always)]
    pub(crate) fn len(&self) -> usize
        ensures { result ≡ length self.now }
    {
        self.left.len() - self.played
    }

    /// The next line, which there is.
    #[inline(always)]
    pub(crate) fn peek(&self) -> &Line
        requires { 0 < length self.now }
        ensures { slice_get self.now 0 ≡ Some result.now }
    {
        &self.left[self.left.len() - self.played - 1]
    }

    /// Passes the next line, which there is.
    #[inline(always)]
    pub(crate) fn pass(&mut self)
        requires { 0 < length self.old }
        ensures { self.new ≡ drop 1 self.old }
    {
        self.played += 1;
    }

    /// Takes the next line, which there is.
    pub(crate) fn take(&mut self) -> Line
        requires { 0 < length self.old }
        ensures line { slice_get self.old 0 ≡ Some result }
        ensures rest { self.new ≡ drop 1 self.old }
    {
        self.left.truncate(self.left.len() - self.played);
        self.played = 0;
        self.left.take_last()
    }

    /// Gives the memory back of the lines that were played or taken, once they are many.
    #[inline(always)]
    pub(crate) fn give_back(&mut self)
        ensures { self.new ≡ self.old }
    {
        if self.left.capacity().saturating_sub(self.len()) >= GIVEN_BACK {
            self.shrink();
        }
    }

    /// Gives it back.
    fn shrink(&mut self)
        ensures { self.new ≡ self.old }
    {
        self.left.truncate(self.left.len() - self.played);
        self.played = 0;
        self.left.shrink_to_fit();
    }
}
