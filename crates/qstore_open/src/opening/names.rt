//! Names.
ghost use Rattle.std.specs.Prelude.{◌≡◌, ◌<◌, ◌&&◌, [], None, Some, true, false, is_some, string_bytes, IfOk, OnOk};
ghost use Rattle.std.specs.BTreeMap.{is_at};
ghost use Rattle.std.specs.List.{list_all};
ghost use Rattle.std.specs.Map.{keys_of, lookup};
ghost use Rattle.std.specs.Ordering.{nat_cmp};
ghost use Rattle.qplain.specs.Paths.{is_path_byte};
ghost use Rattle.qplain.specs.State.{inode_at, is_dir, is_directory, name_key_cmp};
ghost use Rattle.qplain.specs.Use.{links_of};
ghost use Rattle.qplain_image.specs.Rows.{Name, with_row};
ghost use Rattle.qplain_laws.specs.Laws.{leads};
ghost use Rattle.qstore_tree.specs.Tree.{IsSameTree, name_room};
ghost use Rattle.qtext_image.specs.NextFaults.{has_graces, is_behind, may_lead, name_fault};
ghost use Rattle.qstore_open.specs.Faults.{Takes, Tells};

use crate::image_kind::ImageKind;
use crate::last_name::LastName;
use crate::opening::Opening;
use crate::row_fault::RowFault;
use crate::texts::{is_path_name, text_of};
use qplain::{MAX_LINKS, NoMemory, ROOT};
use qstore_tree::Tree;
use std::alloc::Global;

/// Makes room for a name in this directory, and copies it twice.
fn ready_name(
    alloc: Global,
    tree: &mut Tree,
    dir: u64,
    name: &[u8],
) -> Result<(String, Vec<u8>), NoMemory>
    requires directory { is_dir (lookup (is_at (nat_cmp dir)) tree.old.inodes) ≡ true }
    requires text { list_all is_path_byte name.now ≡ true }
    ensures same { IsSameTree tree.old tree.new }
    ensures room { OnOk result (0 < name_room tree.new.room dir) }
    ensures copies { IfOk result (λ r. (string_bytes r.0 ≡ name.now) × (r.1.items ≡ name.now)) }
{
    let text = String::from_str(alloc, text_of(name))?;
    let bytes = Vec::from_slice(alloc, name)?;
    tree.make_name_room(dir)?;
    Ok((text, bytes))
}

impl Opening {
    /// The name that was told last stands before this one.
    fn is_name_behind(&self, dir: u64, name: &[u8]) -> bool
        ensures { result ≡ is_behind name_key_cmp (keys_of self.now.state.names) (dir, name.now) }
    {
        match &self.last_name {
            Some(last) => last.stands_before(dir, name),
            None => true,
        }
    }

    /// A name may be told next, and this one.
    fn may_name(&self, dir: u64, name: &[u8]) -> bool
        ensures { result ≡ (has_graces self.now.state
            && is_behind name_key_cmp (keys_of self.now.state.names) (dir, name.now)) }
    {
        self.graces.block != 0 && self.is_name_behind(dir, name)
    }

    /// The number is a directory's.
    fn is_directory(&self, number: u64) -> bool
        ensures { result ≡ is_directory self.now.state number }
    {
        self.tree.names_in(number).is_some()
    }

    /// A name in this directory leads to this inode.
    fn leads(&self, dir: u64, number: u64) -> bool
        ensures { result ≡ leads self.now.state ((dir, []), number) }
    {
        self.is_directory(dir) && self.tree.node(number).is_some()
    }

    /// The links of this inode, and 0 where it is not there.
    fn links(&self, number: u64) -> u64
        ensures { is_some (inode_at self.now.state number) ≡ true
            → result ≡ links_of self.now.state number (is_directory self.now.state number) }
    {
        match self.tree.node(number) {
            Some(node) => node.links,
            None => 0,
        }
    }

    /// One name more may lead to this inode from this directory.
    fn may_lead(&self, dir: u64, number: u64) -> bool
        requires { leads self.now.state ((dir, []), number) ≡ true }
        ensures { result ≡ may_lead self.now.state dir number }
    {
        if number == ROOT {
            return false;
        }
        if self.is_directory(number) {
            !self.named.has(number) && self.links(dir) < MAX_LINKS
        } else {
            self.links(number) < MAX_LINKS
        }
    }

    /// What is wrong with a name.
    fn test_name(&self, dir: u64, name: &[u8], number: u64) -> Result<(), ImageKind>
        ensures { Tells result (name_fault self.now.state (dir, name.now) number) }
    {
        if !self.may_name(dir, name) {
            return Err(ImageKind::BadOrder);
        }
        if !is_path_name(name) {
            return Err(ImageKind::BadName);
        }
        if !self.leads(dir, number) || !self.may_lead(dir, number) {
            return Err(ImageKind::NoInode);
        }
        Ok(())
    }

    /// Takes in a name of a directory, of which nothing is wrong.
    fn put_directory(&mut self, dir: u64, name: &[u8], number: u64) -> Result<(), NoMemory>
        requires fine { name_fault self.old.state (dir, name.now) number ≡ None }
        requires directory { is_directory self.old.state number ≡ true }
        ensures { OnOk result
            (self.new ≡ record self.old { state = with_row self.old.state (Name (dir, name.now) number) }) }
    {
        let (name, text) = ready_name(self.alloc, &mut self.tree, dir, name)?;
        self.named.add(number)?;
        self.tree.put_name(dir, name, number);
        self.tree.add_link(dir);
        self.last_name = Some(LastName { dir, text });
        Ok(())
    }

    /// Takes in a name of a file, of which nothing is wrong.
    fn put_file(&mut self, dir: u64, name: &[u8], number: u64) -> Result<(), NoMemory>
        requires fine { name_fault self.old.state (dir, name.now) number ≡ None }
        requires file { is_directory self.old.state number ≡ false }
        ensures { OnOk result
            (self.new ≡ record self.old { state = with_row self.old.state (Name (dir, name.now) number) }) }
    {
        let (name, text) = ready_name(self.alloc, &mut self.tree, dir, name)?;
        self.tree.put_name(dir, name, number);
        self.tree.add_link(number);
        self.last_name = Some(LastName { dir, text });
        Ok(())
    }

    /// Takes in a name.
    pub(crate) fn take_name(&mut self, dir: u64, name: &[u8], number: u64) -> Result<(), RowFault>
        ensures fault { Takes result (name_fault self.old.state (dir, name.now) number) }
        ensures ok { OnOk result
            (self.new ≡ record self.old { state = with_row self.old.state (Name (dir, name.now) number) }) }
    {
        if let Err(kind) = self.test_name(dir, name, number) {
            return Err(RowFault::Row(kind));
        }
        if self.is_directory(number) {
            self.put_directory(dir, name, number)?;
        } else {
            self.put_file(dir, name, number)?;
        }
        Ok(())
    }
}
