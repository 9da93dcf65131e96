//! Scripts: the lines of one worker.
ghost use Rattle.std.specs.Prelude.{◌≡◌, ◌≤◌, length};
ghost use Rattle.qplain.specs.declared.bounds.TheConstants.{MAX_LINES};

use crate::Line;
use qrules::Items;
use std::marker::Model;

/// The lines of a script, in their order, at most 65,536.
#[derive(Debug, PartialEq, Eq, Drop)]
pub struct Script {
    lines: Items<Line>,
}

impl Model for Script {
    ghost use Rattle.std.specs.Prelude.{List, ◌≤◌, length};
    ghost use Rattle.qplain.specs.declared.line.Line.{Line};
    ghost use Rattle.qplain.specs.declared.bounds.TheConstants.{MAX_LINES};

    ghost Value = { List Line };

    ghost view = { λ s. s.lines };

    ghost invariant = { λ s. length s.lines ≤ MAX_LINES };

    ghost inverse = { λ lines. record { lines = lines } };
}

impl Script {
    /// A script of these lines, at most 65,536.
    pub fn new(lines: Items<Line>) -> Self
        requires { length lines ≤ MAX_LINES }
        ensures { result ≡ lines }
    {
        Script { lines }
    }

    /// The lines, in their order.
    pub fn lines(&self) -> &[Line]
        ensures lines { result.now ≡ self.now }
        ensures few { length result.now ≤ MAX_LINES }
    {
        self.lines.as_slice()
    }

    /// Gives the lines back.
    pub fn into_lines(self) -> Items<Line>
        ensures lines { result ≡ self }
        ensures few { length result ≤ MAX_LINES }
    {
        self.lines
    }
}
