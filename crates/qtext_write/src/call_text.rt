//! Calls as text.
ghost use Rattle.std.specs.Prelude.{◌≡◌, ◌≤◌, ◌<◌, ◌+◌, ◌^◌, ◌∷◌, ◌++◌, decimal, length, IfOk};
ghost use Rattle.std.specs.List.{flat_map, join_with_byte};
ghost use Rattle.qplain.specs.Calls.{IsCall};
ghost use Rattle.qplain.specs.Paths.{ArePathBytes};
ghost use Rattle.qplain.specs.Ranges.{AreBytes, AreLimits, IsOwner};
ghost use Rattle.qtext.specs.Pieces.{data_text};
ghost use Rattle.qtext.specs.RuleWords.{kind_text};
ghost use Rattle.qtext.specs.Written.{Passes};
ghost use Rattle.qtext_read.specs.Calls.{AreTyped, values_of};
ghost use Rattle.qtext_read.specs.Spelling.{call_words, limits_words, owner_text, value_words};
ghost use Rattle.qtext_write.specs.Texts.{project_text, spaced};

use crate::data_text::put_input;
use qplain::{Call, Data, Path};
use qrules::{Graces, Kind, Limits};
use qtext::{LINE_ROOM, TextLine, WORD_ROOM, Written, kind_word};
use qtext_read::{CallParts, Values, parts_of, verb_word};
use std::io::Write;

/// How many bytes may stand before a call.
pub const CALL_PLACE: usize = 464;

/// How many bytes a line holds at most after a call.
pub const CALL_ROOM: usize = 640;

/// Puts a space and a path.
fn put_path<W: Write>(out: &mut W, line: &mut TextLine, path: &Path) -> Written
    requires { length line.old < LINE_ROOM }
    ensures passes { Passes (W.contents out.old) (W.contents out.new) result (line.old ++ 32 ∷ path.now) line.new }
    ensures short { IfOk result (λ _. length line.new ≤ WORD_ROOM) }
    ensures typed { ArePathBytes path.now }
{
    line.byte(b' ');
    line.put_word(out, path.bytes())
}

/// Puts two paths, each after a space.
fn put_paths<W: Write>(out: &mut W, line: &mut TextLine, from: &Path, to: &Path) -> Written
    requires { length line.old < LINE_ROOM }
    ensures passes { Passes (W.contents out.old) (W.contents out.new) result
        (line.old ++ (32 ∷ from.now ++ 32 ∷ to.now)) line.new }
    ensures short { IfOk result (λ _. length line.new ≤ WORD_ROOM) }
    ensures typed { IfOk result (λ _. ArePathBytes from.now × ArePathBytes to.now) }
{
    put_path(out, line, from)?;
    put_path(out, line, to)
}

/// Puts a path and a number, each after a space.
fn put_at<W: Write>(out: &mut W, line: &mut TextLine, path: &Path, number: u64) -> Written
    requires { length line.old < LINE_ROOM }
    ensures passes { Passes (W.contents out.old) (W.contents out.new) result
        (line.old ++ (32 ∷ path.now ++ 32 ∷ decimal number)) line.new }
    ensures short { IfOk result (λ _. length line.new ≤ WORD_ROOM + 21) }
    ensures typed { ArePathBytes path.now }
{
    put_path(out, line, path)?;
    line.field(number);
    Ok(())
}

/// Puts a path, an offset and a length, each after a space.
fn put_range<W: Write>(out: &mut W, line: &mut TextLine, path: &Path, off: u64, len: u64) -> Written
    requires { length line.old < LINE_ROOM }
    ensures passes { Passes (W.contents out.old) (W.contents out.new) result
        (line.old ++ ((32 ∷ path.now ++ 32 ∷ decimal off) ++ 32 ∷ decimal len)) line.new }
    ensures short { IfOk result (λ _. length line.new ≤ CALL_ROOM) }
    ensures typed { ArePathBytes path.now }
{
    put_at(out, line, path, off)?;
    line.field(len);
    Ok(())
}

/// Puts a path, an offset and data, each after a space.
fn put_bytes<W: Write>(
    out: &mut W,
    line: &mut TextLine,
    path: &Path,
    off: u64,
    bytes: &Data,
) -> Written
    requires { length line.old < LINE_ROOM }
    ensures passes { Passes (W.contents out.old) (W.contents out.new) result
        (line.old ++ ((32 ∷ path.now ++ 32 ∷ decimal off) ++ 32 ∷ data_text bytes.now)) line.new }
    ensures short { IfOk result (λ _. length line.new ≤ WORD_ROOM) }
    ensures typed { IfOk result (λ _. ArePathBytes path.now × AreBytes bytes.now) }
{
    put_at(out, line, path, off)?;
    line.byte(b' ');
    put_input(out, line, bytes.input())?;
    line.put_full(out)
}

/// Puts a space and an owner's id after what is there, or a dash for none.
pub fn put_owner(line: &mut TextLine, owner: Option<u32>)
    requires { length line.old + 21 ≤ LINE_ROOM }
    ensures text { line.new ≡ line.old ++ 32 ∷ owner_text owner }
    ensures short { length line.new ≤ length line.old + 21 }
    ensures typed { IsOwner owner }
{
    match owner {
        None => line.text(b" -"),
        Some(id) => line.field(id as u64),
    }
}

/// Puts a space and a project's id, and nothing where there is none.
fn put_project(line: &mut TextLine, project: Option<u32>)
    requires { length line.old + 21 ≤ LINE_ROOM }
    ensures text { line.new ≡ line.old ++ project_text project }
    ensures short { length line.new ≤ length line.old + 21 }
    ensures typed { IsOwner project }
{
    if let Some(id) = project {
        line.field(id as u64);
    }
}

/// Puts owners after others, each after a space.
fn put_owners(line: &mut TextLine, uid: Option<u32>, gid: Option<u32>, project: Option<u32>)
    requires { length line.old ≤ WORD_ROOM }
    ensures text { line.new ≡ line.old ++ 32 ∷ owner_text uid ++ 32 ∷ owner_text gid ++ project_text project }
    ensures short { length line.new ≤ CALL_ROOM }
    ensures typed { IsOwner uid × IsOwner gid × IsOwner project }
{
    put_owner(line, uid);
    put_owner(line, gid);
    put_project(line, project);
}

/// Puts a kind and an id, each after a space.
fn put_record(line: &mut TextLine, kind: Kind, id: u32)
    requires { length line.old ≤ WORD_ROOM }
    ensures text { line.new ≡ line.old ++ 32 ∷ kind_text kind ++ 32 ∷ decimal id }
    ensures short { length line.new ≤ length line.old + 30 }
{
    line.byte(b' ');
    line.text(kind_word(kind));
    line.field(id as u64);
}

/// Puts limits after what is there, each after a space: soft and hard of blocks, then of inodes.
pub fn put_limits(line: &mut TextLine, limits: &Limits)
    requires { length line.old ≤ WORD_ROOM + 42 }
    ensures text { line.new ≡ line.old ++ spaced (limits_words limits.now) }
    ensures short { length line.new ≤ CALL_ROOM }
    ensures typed { AreLimits limits.now }
{
    line.field(limits.block_soft);
    line.field(limits.block_hard);
    line.field(limits.inode_soft);
    line.field(limits.inode_hard);
}

/// Puts the values of a call, each after a space.
fn put_values<W: Write>(out: &mut W, line: &mut TextLine, values: Values<'_>) -> Written
    requires { length line.old ≤ WORD_ROOM }
    ensures passes { Passes (W.contents out.old) (W.contents out.new) result
        (line.old ++ spaced (flat_map value_words (values_of values.entry))) line.new }
    ensures short { IfOk result (λ _. length line.new ≤ CALL_ROOM) }
    ensures typed { IfOk result (λ _. AreTyped values.entry) }
{
    match values {
        Values::Path(path) => put_path(out, line, path),
        Values::Paths(from, to) => put_paths(out, line, from, to),
        Values::Size(path, size) => put_at(out, line, path, size),
        Values::Range(path, off, len) => put_range(out, line, path, off, len),
        Values::Bytes(path, off, bytes) => put_bytes(out, line, path, off, bytes),
        Values::Owners(path, uid, gid, project) => {
            put_path(out, line, path)?;
            Ok(put_owners(line, uid, gid, project))
        }
        Values::Limits(kind, id, limits) => {
            put_record(line, kind, id);
            Ok(put_limits(line, limits))
        }
        Values::Graces(graces) => {
            line.field(graces.block);
            Ok(line.field(graces.inode))
        }
        Values::Record(kind, id) => Ok(put_record(line, kind, id)),
    }
}

/// Puts a call after what is there, in the one spelling that journals have. What there is no room for is written.
pub fn put_call<W: Write>(out: &mut W, line: &mut TextLine, call: &Call) -> Written
    requires { length line.old ≤ CALL_PLACE }
    ensures passes { Passes (W.contents out.old) (W.contents out.new) result
        (line.old ++ join_with_byte 32 (call_words call.now)) line.new }
    ensures short { IfOk result (λ _. length line.new ≤ CALL_ROOM) }
    ensures held { IfOk result (λ _. IsCall call.now) }
{
    let CallParts { verb, values } = parts_of(call);
    line.text(verb_word(verb));
    put_values(out, line, values)
}
