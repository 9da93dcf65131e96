//! The names of a store as lines.
ghost use Rattle.std.specs.Prelude.{◌≡◌, map};
ghost use Rattle.std.specs.List.{flat_map};
ghost use Rattle.qtext.specs.Written.{Writes};
ghost use Rattle.qstore_tree.specs.Listed.{name_entry};
ghost use Rattle.qtext_image_write.specs.Lines.{name_text};

use qstore::{Name, Store};
use qtext::{RefusedWrite, TextLine, Written};
use std::io::Write;

/// `name DIR NAME INO`.
fn put_name<W: Write>(out: &mut W, line: &mut TextLine, name: &Name<'_>) -> Written
    ensures { Writes (W.contents out.old) (W.contents out.new) result (name_text (name_entry name.now)) }
{
    line.clear();
    line.text(b"name");
    line.field(name.dir);
    line.byte(b' ');
    line.put_word(out, name.text.as_bytes())?;
    line.field(name.ino);
    line.put_end(out)
}

fn put_rows<W: Write>(out: &mut W, line: &mut TextLine, names: &[Name<'_>]) -> Written
    ensures { Writes (W.contents out.old) (W.contents out.new) result
        (flat_map (λ n. name_text (name_entry n)) names.now) }
{
    for name in names {
        put_name(out, line, name)?;
    }
    Ok(())
}

/// A line for each name, by directory, then by name. An Err may be that memory was wanted.
pub(crate) fn put_names<W: Write>(out: &mut W, line: &mut TextLine, store: &Store) -> Written
    ensures { Writes (W.contents out.old) (W.contents out.new) result
        (flat_map name_text store.now.state.names) }
{
    match store.names() {
        Ok(names) => put_rows(out, line, &names),
        Err(_) => Err(RefusedWrite),
    }
}
