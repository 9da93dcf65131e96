ghost use Rattle.std.specs.Prelude.{◌≡◌};
ghost use Rattle.qtext.specs.RuleWords.{kind_text, over_text};

use qrules::{Kind, Over};

/// A kind's word, as reports and calls write it.
pub fn kind_word(kind: Kind) -> &'static [u8]
    ensures { result.now ≡ kind_text kind }
{
    match kind {
        Kind::User => b"user",
        Kind::Group => b"group",
        Kind::Project => b"project",
    }
}

/// A limit's words, as refusals write them.
pub fn over_word(over: Over) -> &'static [u8]
    ensures { result.now ≡ over_text over }
{
    match over {
        Over::InodeHard => b"inode-hard",
        Over::InodeSoft => b"inode-soft",
        Over::BlockHard => b"block-hard",
        Over::BlockSoft => b"block-soft",
    }
}
