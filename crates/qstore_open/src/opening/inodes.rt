//! Directories and files.
ghost use Rattle.std.specs.Prelude.{◌≡◌, false, not, OnOk};
ghost use Rattle.std.specs.Map.{keys_of};
ghost use Rattle.std.specs.Ordering.{nat_cmp};
ghost use Rattle.qrules.specs.declared.kind.Kind.TheVariants.{Project};
ghost use Rattle.qplain.specs.Known.{is_declared};
ghost use Rattle.qplain_laws.specs.Laws.{is_known_owner};
ghost use Rattle.qtext_image.specs.Setups.{principals_of};
ghost use Rattle.qplain.specs.State.{new_directory};
ghost use Rattle.qplain_image.specs.Rows.{Directory, FileHead, with_row};
ghost use Rattle.qstore_tree.specs.Nodes.{unfilled_file};
ghost use Rattle.qtext_image.specs.Faults.{has_known_owners};
ghost use Rattle.qtext_image.specs.NextFaults.{are_none, inode_fault, is_behind, may_stand};
ghost use Rattle.qstore_open.specs.Faults.{Takes, Tells};

use crate::image_kind::ImageKind;
use crate::opening::Opening;
use crate::row_fault::RowFault;
use qplain::Owners;
use qrules::Kind;
use qtext::TextKind;

impl Opening {
    /// An inode of this number may be told next.
    fn may_stand(&self, number: u64) -> bool
        ensures { result ≡ may_stand self.now.state number }
    {
        self.graces.block != 0
            && self.has_records(Kind::User)
            && self.has_records(Kind::Group)
            && self.has_no_name()
            && self.is_behind(number)
    }

    /// No inode is told.
    pub(crate) fn has_no_inode(&self) -> bool
        ensures { result ≡ are_none self.now.state.inodes }
    {
        self.last.is_none()
    }

    /// No name is told.
    fn has_no_name(&self) -> bool
        ensures { result ≡ are_none self.now.state.names }
    {
        self.last_name.is_none()
    }

    /// A record of this kind is told.
    fn has_records(&self, kind: Kind) -> bool
        ensures { result ≡ not (are_none (principals_of kind self.now.state.holders)) }
    {
        !self.records.of(kind).is_empty()
    }

    /// All inodes that are told have lower numbers.
    fn is_behind(&self, number: u64) -> bool
        ensures { result ≡ is_behind nat_cmp (keys_of self.now.state.inodes) number }
    {
        match self.last {
            Some(last) => last < number,
            None => true,
        }
    }

    /// The principal is declared.
    fn is_declared(&self, kind: Kind, id: u32) -> bool
        ensures { result ≡ is_declared self.now.state kind id }
    {
        self.records.has(kind, id)
    }

    /// The project is declared, and where there is none, no project is.
    fn is_known_project(&self, project: Option<u32>) -> bool
        ensures { result ≡ is_known_owner self.now.state Project project }
    {
        match project {
            Some(id) => self.is_declared(Kind::Project, id),
            None => !self.has_records(Kind::Project),
        }
    }

    /// The user and the group are declared, and the project, where there are any.
    fn are_known(&self, owners: &Owners) -> bool
        ensures { result ≡ has_known_owners self.now.state (unfilled_file owners.now 0) }
    {
        self.is_declared(Kind::User, owners.uid)
            && self.is_declared(Kind::Group, owners.gid)
            && self.is_known_project(owners.project)
    }

    #[tactic(auto, using(crate::proofs::MoreInodes::size_unfilled))]
    /// What is wrong with an inode of this size, which is 0 for a directory.
    fn test_inode(&self, number: u64, owners: &Owners, size: u64) -> Result<(), ImageKind>
        ensures { Tells result (inode_fault self.now.state (number, unfilled_file owners.now size)) }
    {
        if !self.may_stand(number) {
            return Err(ImageKind::BadOrder);
        }
        if number >= self.bounds.next || size > self.file_limit {
            return Err(ImageKind::Text(TextKind::BadNumber));
        }
        if !self.are_known(owners) {
            return Err(ImageKind::BadOwner);
        }
        Ok(())
    }

    /// Takes in a directory.
    pub(crate) fn take_directory(&mut self, number: u64, owners: Owners) -> Result<(), RowFault>
        ensures fault { Takes result (inode_fault self.old.state (number, new_directory owners)) }
        ensures ok { OnOk result
            (self.new ≡ record self.old { state = with_row self.old.state (Directory number owners) }) }
    {
        if let Err(kind) = self.test_inode(number, &owners, 0) {
            return Err(RowFault::Row(kind));
        }
        self.tree.open_directory(self.alloc, number, owners)?;
        self.tree.set_links(number, 2);
        self.last = Some(number);
        Ok(())
    }

    /// Takes in a file of this size, with no block.
    pub(crate) fn take_file(
        &mut self,
        number: u64,
        owners: Owners,
        size: u64,
    ) -> Result<(), RowFault>
        ensures fault { Takes result (inode_fault self.old.state (number, unfilled_file owners size)) }
        ensures ok { OnOk result
            (self.new ≡ record self.old { state = with_row self.old.state (FileHead number owners size) }) }
    {
        if let Err(kind) = self.test_inode(number, &owners, size) {
            return Err(RowFault::Row(kind));
        }
        self.tree.open_file(self.alloc, number, owners, size)?;
        self.last = Some(number);
        Ok(())
    }
}
