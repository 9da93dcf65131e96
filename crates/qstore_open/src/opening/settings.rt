//! The bounds, the graces and the records.
ghost use Rattle.std.specs.Prelude.{◌≡◌, ◌≤◌, ◌∷◌, ◌++◌, [], nat_le, OnOk};
ghost use Rattle.qplain_image.specs.Rows.{Bounds as BoundsRow, Grace, Record, with_row};
ghost use Rattle.qtext_image.specs.Faults.{is_end_fit, is_holder_fit};
ghost use Rattle.qtext_image.specs.NextFaults.{bounds_fault, graces_fault, holder_fault, is_name_taken, may_hold};
ghost use Rattle.qstore_open.specs.Faults.{Takes, Tells};
ghost use Rattle.qstore_open.specs.Told.{part_in};

use crate::bounds::{Bounds, are_bounds_fit};
use crate::image_kind::ImageKind;
use crate::opening::Opening;
use crate::records::ToldRecord;
use crate::row_fault::RowFault;
use crate::texts::text_of;
use qplain::{MAX_PRINCIPALS, Quota, is_principal_name};
use qrules::{Graces, Kind, MAX_GRACE, MAX_MOMENT, PrincipalName};
use qtext::TextKind;
use qtext_image_read::ImageRecord;

/// A grace end that stands is at most what the latest moment and the longest grace add up to.
fn is_end_fit(end: Option<u64>) -> bool
    ensures { result ≡ is_end_fit end }
{
    match end {
        Some(end) => end <= MAX_MOMENT + MAX_GRACE,
        None => true,
    }
}

/// The limits and the ends of a record are in range.
fn is_record_fit(record: &ImageRecord) -> bool
    ensures { result ≡ is_holder_fit (part_in record.now).holder }
{
    record.limits.are_in_range() && is_end_fit(record.block_end) && is_end_fit(record.inode_end)
}

impl Opening {
    /// Takes in the bounds.
    pub(crate) fn take_bounds(&mut self, bounds: Bounds) -> Result<(), RowFault>
        ensures fault { Takes result (bounds_fault self.old.state bounds.size bounds.most_inodes bounds.next) }
        ensures ok { OnOk result (self.new ≡ record self.old {
          state = with_row self.old.state (BoundsRow bounds.size bounds.most_inodes bounds.next);
        }) }
    {
        if self.bounds.size != 0 {
            return Err(RowFault::Row(ImageKind::BadOrder));
        }
        if !are_bounds_fit(&bounds) {
            return Err(RowFault::Row(ImageKind::Text(TextKind::BadNumber)));
        }
        self.bounds = bounds;
        Ok(())
    }

    /// Takes in the graces.
    pub(crate) fn take_graces(&mut self, graces: Graces) -> Result<(), RowFault>
        ensures fault { Takes result (graces_fault self.old.state graces) }
        ensures ok { OnOk result (self.new ≡ record self.old { state = with_row self.old.state (Grace graces) }) }
    {
        if self.bounds.size == 0 || self.graces.block != 0 {
            return Err(RowFault::Row(ImageKind::BadOrder));
        }
        if !graces.are_in_range() {
            return Err(RowFault::Row(ImageKind::Text(TextKind::BadNumber)));
        }
        self.graces = graces;
        Ok(())
    }

    /// The record may be told next.
    fn may_hold(&self, record: &ImageRecord) -> bool
        ensures { result ≡ may_hold self.now.state (part_in record.now).holder }
    {
        self.graces.block != 0
            && self.has_no_inode()
            && self.records.are_before(record.kind, record.id)
            && self.records.begin_with(record.kind, record.id)
    }

    /// Another of its kind has the name.
    fn is_name_taken(&self, record: &ImageRecord) -> bool
        ensures { result ≡ is_name_taken self.now.state (part_in record.now).holder }
    {
        self.records.has_name(record.kind, record.name)
    }

    /// What is wrong with a record.
    fn test_record(&self, record: &ImageRecord) -> Result<(), ImageKind>
        ensures { Tells result (holder_fault self.now.state (part_in record.now).holder) }
    {
        if !self.may_hold(record) {
            return Err(ImageKind::BadOrder);
        }
        if !is_record_fit(record) {
            return Err(ImageKind::Text(TextKind::BadNumber));
        }
        if !is_principal_name(record.name) || self.is_name_taken(record) {
            return Err(ImageKind::BadName);
        }
        Ok(())
    }

    /// Takes in a record.
    pub(crate) fn take_record(&mut self, record: &ImageRecord) -> Result<(), RowFault>
        ensures fault { Takes result (holder_fault self.old.state (part_in record.now).holder) }
        ensures ok { OnOk result (self.new ≡ record {
          state = with_row self.old.state (Record (part_in record.now).holder record.now.blocks record.now.inodes);
          records = self.old.records ++ part_in record.now ∷ [];
        }) }
    {
        if let Err(kind) = self.test_record(record) {
            return Err(RowFault::Row(kind));
        }
        let name = String::from_str(self.alloc, text_of(record.name))?;
        let told = ToldRecord {
            id: record.id,
            name: PrincipalName::new(name),
            quota: Quota {
                blocks: record.blocks,
                inodes: record.inodes,
                limits: record.limits,
                block_end: record.block_end,
                inode_end: record.inode_end,
            },
        };
        self.records.push(record.kind, told)?;
        Ok(())
    }
}
