//! Callers as text.
ghost use Rattle.std.specs.Prelude.{◌≡◌, ◌≤◌, ◌<◌, ◌+◌, ◌*◌, ◌^◌, ◌++◌, length};
ghost use Rattle.std.specs.List.{AllByRecursion, flat_map};
ghost use Rattle.qtext.specs.Written.{Writes};
ghost use Rattle.qtext_read.specs.Spelling.{caller_text};
ghost use Rattle.qplain.specs.Held.{IsCaller};
ghost use Rattle.qtext_write.specs.Texts.{group_text};

use qplain::Cred;
use qtext::{LINE_ROOM, TextLine};

/// How many bytes may stand before a caller.
pub const CALLER_PLACE: usize = 64;

/// Puts further groups after what is there, with a comma before each.
fn put_groups(line: &mut TextLine, groups: &[u32])
    requires few { length groups.now ≤ 16 }
    requires room { length line.old ≤ CALLER_PLACE + 41 }
    ensures text { line.new ≡ line.old ++ flat_map group_text groups.now }
    ensures short { length line.new ≤ length line.old + 21 * length groups.now }
    ensures held { AllByRecursion (λ g. g < 2 ^ 32) groups.now }
{
    for group in groups {
        line.byte(b',');
        line.number(*group as u64);
    }
}

/// Puts a caller after what is there.
pub fn put_caller(line: &mut TextLine, cred: &Cred)
    requires { length line.old ≤ CALLER_PLACE }
    ensures text { line.new ≡ line.old ++ caller_text cred.now }
    ensures short { length line.new ≤ length line.old + 377 }
    ensures held { IsCaller cred.now }
{
    line.number(cred.uid() as u64);
    line.byte(b':');
    line.number(cred.gid() as u64);
    put_groups(line, cred.more());
}
