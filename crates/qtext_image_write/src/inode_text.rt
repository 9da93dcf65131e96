//! The inodes of a store as lines, each file with its blocks.
ghost use Rattle.std.specs.Prelude.{◌≡◌, ◌≤◌, ◌+◌, ◌∷◌, ◌++◌, [], decimal, length, IfOk};
ghost use Rattle.std.specs.List.{AllByRecursion, flat_map};
ghost use Rattle.qblocks.specs.File.{size_of};
ghost use Rattle.qplain_image.specs.Rows.{Directory, FileHead};
ghost use Rattle.qtext.specs.Written.{Writes};
ghost use Rattle.qtext_write.specs.Texts.{spaced};
ghost use Rattle.qtext_image.specs.Spelling.{owners_words, row_text};
ghost use Rattle.qstore_tree.specs.Listed.{node_entry};
ghost use Rattle.qtext_image_write.specs.Lines.{blocks_text, inode_text};
ghost use Rattle.qtext_image_write.specs.Typed.{HasTypedBlocks};

use crate::block_text::put_blocks;
use qblocks::BlockFile;
use qplain::Owners;
use qstore::Store;
use qstore_tree::{Content, Node};
use qtext::{RefusedWrite, TextLine, WORD_ROOM, Written};
use qtext_write::put_owner;
use std::io::Write;

/// ` INO UID GID PROJECT`.
fn put_owned(line: &mut TextLine, number: u64, owners: &Owners)
    requires { length line.old ≤ WORD_ROOM }
    ensures text { line.new ≡ line.old ++ 32 ∷ decimal number ++ spaced (owners_words owners.now []) }
    ensures short { length line.new ≤ length line.old + 84 }
{
    line.field(number);
    line.field(owners.uid as u64);
    line.field(owners.gid as u64);
    put_owner(line, owners.project);
}

/// `dir INO UID GID PROJECT`.
fn put_directory<W: Write>(
    out: &mut W,
    line: &mut TextLine,
    number: u64,
    owners: &Owners,
) -> Written
    ensures { Writes (W.contents out.old) (W.contents out.new) result (row_text (Directory number owners.now)) }
{
    line.clear();
    line.text(b"dir");
    put_owned(line, number, owners);
    line.put_end(out)
}

/// `file INO UID GID PROJECT SIZE`.
fn put_file_head<W: Write>(
    out: &mut W,
    line: &mut TextLine,
    number: u64,
    owners: &Owners,
    size: u64,
) -> Written
    ensures { Writes (W.contents out.old) (W.contents out.new) result (row_text (FileHead number owners.now size)) }
{
    line.clear();
    line.text(b"file");
    put_owned(line, number, owners);
    line.field(size);
    line.put_end(out)
}

/// The lines of a file: its own, and those of its blocks.
fn put_file<W: Write>(
    out: &mut W,
    line: &mut TextLine,
    number: u64,
    owners: &Owners,
    file: &BlockFile,
) -> Written
    ensures writes { Writes (W.contents out.old) (W.contents out.new) result
        (row_text (FileHead number owners.now (size_of file.now.file)) ++ blocks_text file.now.file) }
    ensures held { IfOk result (λ _. HasTypedBlocks file.now.file) }
{
    put_file_head(out, line, number, owners, file.size())?;
    put_blocks(out, line, file)
}

/// The lines of an inode, which stands beside its number.
fn put_node<W: Write>(out: &mut W, line: &mut TextLine, numbered: &(u64, &Node)) -> Written
    ensures writes { Writes (W.contents out.old) (W.contents out.new) result (inode_text (node_entry numbered.now)) }
    ensures held { IfOk result (λ _. HasTypedBlocks (node_entry numbered.now).1.file) }
{
    let (number, node) = *numbered;
    match &node.content {
        Content::Directory(_) => put_directory(out, line, number, &node.owners),
        Content::File(file) => put_file(out, line, number, &node.owners, file),
    }
}

fn put_rows<W: Write>(out: &mut W, line: &mut TextLine, nodes: &[(u64, &Node)]) -> Written
    ensures writes { Writes (W.contents out.old) (W.contents out.new) result
        (flat_map (λ e. inode_text (node_entry e)) nodes.now) }
    ensures held { IfOk result (λ _. AllByRecursion (λ e. HasTypedBlocks (node_entry e).1.file) nodes.now) }
{
    for numbered in nodes {
        put_node(out, line, numbered)?;
    }
    Ok(())
}

/// The lines of all inodes, by number. An Err may be that memory was wanted.
pub(crate) fn put_inodes<W: Write>(out: &mut W, line: &mut TextLine, store: &Store) -> Written
    ensures writes { Writes (W.contents out.old) (W.contents out.new) result
        (flat_map inode_text store.now.state.inodes) }
    ensures held { IfOk result (λ _. AllByRecursion (λ e. HasTypedBlocks e.1.file) store.now.state.inodes) }
{
    match store.nodes() {
        Ok(nodes) => put_rows(out, line, &nodes),
        Err(_) => Err(RefusedWrite),
    }
}
