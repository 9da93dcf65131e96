//! Callers and calls as members of an object.
ghost use Rattle.std.specs.Prelude.{◌≡◌, ◌∷◌, [], map};
ghost use Rattle.std.specs.List.{flat_map, zip};
ghost use Rattle.json.specs.Print.{quoted};
ghost use Rattle.qtext.specs.RuleWords.{kind_text};
ghost use Rattle.qtext.specs.Written.{Writes};
ghost use Rattle.qtext_read.specs.Rows.{name};
ghost use Rattle.qtext_rows.specs.Calls.{call_members, caller_members, fill_members, named_call};
ghost use Rattle.qtext_rows.specs.Values.{member, value_text};

use crate::part::{Part, put_member, put_part, put_parts};
use crate::value::{Value, id_or_null};
use qblocks::Input;
use qplain::{Call, Cred, Path};
use qrules::Kind;
use qtext::{TextLine, Written, kind_word};
use qtext_read::{Argument, CallParts, Values, Verb, name_of, parts_of, row_of, verb_word};
use qtext_write::put_caller;
use std::io::Write;

/// Writes values in the places of arguments, each by the argument's name.
#[tactic(auto, using(qtext::proofs::Fronts::front_of_first, qtext::proofs::Fronts::writes_then))]
fn put_values<W: Write>(out: &mut W, row: &[Argument], values: &[Value<'_>]) -> Written
    ensures { Writes (W.contents out.old) (W.contents out.new) result
        (flat_map (λ p. member (name p.0) p.1) (zip row.now (map value_text values.now))) }
{
    let [argument, row @ ..] = row else {
        return Ok(());
    };
    let [value, values @ ..] = values else {
        return Ok(());
    };
    put_member(out, name_of(*argument), value)?;
    put_values(out, row, values)
}

/// Writes a call of this verb as a member, with these values in the places of its arguments.
#[tactic(auto, using(qtext::proofs::Fronts::front_of_first, qtext::proofs::Fronts::writes_then))]
fn put_named<W: Write>(out: &mut W, verb: Verb, values: &[Value<'_>]) -> Written
    ensures { Writes (W.contents out.old) (W.contents out.new) result
        (named_call verb (map value_text values.now)) }
{
    put_part(out, &Part::Nested(b"call", verb_word(verb)))?;
    put_values(out, row_of(verb), values)?;
    put_part(out, &Part::Shut)
}

fn path_value(path: &Path) -> Value<'_>
    ensures { value_text result ≡ quoted path.now }
{
    Value::Text(path.bytes())
}

fn kind_value<'a>(kind: Kind) -> Value<'a>
    ensures { value_text result ≡ quoted (kind_text kind) }
{
    Value::Text(kind_word(kind))
}

/// Writes a write of N equal bytes, as a fill.
pub(crate) fn put_fill<W: Write>(
    out: &mut W,
    path: &Path,
    off: u64,
    count: u64,
    byte: u8,
) -> Written
    ensures { Writes (W.contents out.old) (W.contents out.new) result (fill_members path.now off count byte) }
{
    let byte = Value::Digits(Input::Fill { count: 1, byte });
    let values = [
        path_value(path),
        Value::Number(off),
        Value::Number(count),
        byte,
    ];
    put_named(out, Verb::Fill, &values)
}

/// Writes a call as a member.
pub(crate) fn put_call<W: Write>(out: &mut W, call: &Call) -> Written
    ensures { Writes (W.contents out.old) (W.contents out.new) result (call_members call.now) }
{
    let CallParts { verb, values } = parts_of(call);
    match values {
        Values::Path(path) => put_named(out, verb, &[path_value(path)]),
        Values::Paths(from, to) => put_named(out, verb, &[path_value(from), path_value(to)]),
        Values::Size(path, size) => put_named(out, verb, &[path_value(path), Value::Number(size)]),
        Values::Range(path, off, len) => put_named(
            out,
            verb,
            &[path_value(path), Value::Number(off), Value::Number(len)],
        ),
        Values::Bytes(path, off, bytes) => {
            let bytes = Value::Digits(bytes.input());
            put_named(out, verb, &[path_value(path), Value::Number(off), bytes])
        }
        Values::Owners(path, uid, gid, project) => {
            let owners = [
                path_value(path),
                id_or_null(uid),
                id_or_null(gid),
                id_or_null(project),
            ];
            put_named(out, verb, &owners)
        }
        Values::Limits(kind, id, limits) => {
            let values = [
                kind_value(kind),
                Value::Number(id as u64),
                Value::Number(limits.block_soft),
                Value::Number(limits.block_hard),
                Value::Number(limits.inode_soft),
                Value::Number(limits.inode_hard),
            ];
            put_named(out, verb, &values)
        }
        Values::Graces(graces) => {
            let values = [Value::Number(graces.block), Value::Number(graces.inode)];
            put_named(out, verb, &values)
        }
        Values::Record(kind, id) => {
            put_named(out, verb, &[kind_value(kind), Value::Number(id as u64)])
        }
    }
}

/// Writes a line's moment and caller as members.
pub(crate) fn put_caller_members<W: Write>(out: &mut W, moment: u64, cred: &Cred) -> Written
    ensures { Writes (W.contents out.old) (W.contents out.new) result (caller_members moment cred.now) }
{
    let mut caller = TextLine::new();
    put_caller(&mut caller, cred);
    let parts = [
        Part::Member(b"moment", Value::Number(moment)),
        Part::Member(b"caller", Value::Text(caller.as_slice())),
    ];
    put_parts(out, &parts)
}
