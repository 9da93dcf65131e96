//! A store in the making, of which an image tells row by row.
ghost use Rattle.std.specs.Prelude.{◌≡◌, ◌≤◌, ◌^◌, ℕ, List, IfOk, OnOk};
ghost use Rattle.qplain.specs.Editions.{file_limit_of};
ghost use Rattle.qtext_image.specs.NextFaults.{next_fault};
ghost use Rattle.qtext_image_read.specs.ImageRows.{row_of_image_row};
ghost use Rattle.qplain_image.specs.Rows.{Row};
ghost use Rattle.qstore_open.specs.Ending.{end_line};
ghost use Rattle.qstore_open.specs.Faults.{Takes};
ghost use Rattle.qstore_open.specs.ReadTo.{IsToldBy};
ghost use Rattle.qstore_open.specs.Told.{nothing_told, told_more};

use crate::bounds::Bounds;
use crate::ending::end_line;
use crate::last_name::LastName;
use crate::named::Named;
use crate::records::ToldRecords;
use crate::row_fault::RowFault;
use qplain::{Edition, NoMemory};
use qrules::Graces;
use qstore_tree::Tree;
use qtext_image_read::ImageRow;
use std::alloc::Global;
use std::marker::Model;

mod blocks;
mod inodes;
mod names;
mod settings;

/// A store in the making, of which an image tells row by row. Contracts see the state that the rows make, and the
/// records with the uses that they tell.
#[derive(Drop)]
pub struct Opening {
    alloc: Global,
    file_limit: u64,
    bounds: Bounds,
    graces: Graces,
    records: ToldRecords,
    tree: Tree,
    named: Named,
    last: Option<u64>,
    last_name: Option<LastName>,
}

impl Model for Opening {
    ghost use Rattle.qstore_open.specs.Told.{Told};

    ghost Value = { Told };

    ghost use Rattle.qstore_open.specs.Kept.{IsKept, told_in};

    ghost view = { told_in };

    ghost invariant = { IsKept };
}

impl Opening {
    /// Nothing is told yet. It takes no memory. The hashes of names begin at the seed, on which no answer depends.
    pub fn new(alloc: Global, seed: u64, edition: Edition) -> Opening
        ensures { result ≡ nothing_told (file_limit_of edition) }
    {
        Opening {
            alloc,
            file_limit: edition.file_limit(),
            bounds: Bounds {
                size: 0,
                most_inodes: 0,
                next: 0,
            },
            graces: Graces { block: 0, inode: 0 },
            records: ToldRecords::new(alloc),
            tree: Tree::empty(alloc, seed),
            named: Named::new(alloc),
            last: None,
            last_name: None,
        }
    }

    /// Takes in a row, or tells what is wrong with it. After an Err it is of no more use.
    pub fn take(&mut self, row: &ImageRow) -> Result<(), RowFault>
        ensures fault { Takes result (next_fault self.old.state (row_of_image_row row.now)) }
        ensures ok { OnOk result (self.new ≡ told_more self.old (row_of_image_row row.now)) }
    {
        match row {
            ImageRow::Bounds {
                size,
                most_inodes,
                next,
            } => self.take_bounds(Bounds {
                size: *size,
                most_inodes: *most_inodes,
                next: *next,
            }),
            ImageRow::Graces(graces) => self.take_graces(*graces),
            ImageRow::Record(record) => self.take_record(record),
            ImageRow::Directory { ino, owners } => self.take_directory(*ino, *owners),
            ImageRow::File { ino, owners, size } => self.take_file(*ino, *owners, *size),
            ImageRow::Block(block) => self.take_block(block),
            ImageRow::Name { dir, name, ino } => self.take_name(*dir, name, *ino),
        }
    }

    /// The line of the first row, if there is one, that all rows together show not to be so: a total past the bounds, a
    /// use other than the one that is counted, a grace end where none belongs or none where one does, no root, an inode
    /// without its names or that no walk from the root reaches. O(n log n); an Err is out of memory.
    pub fn wrong_line(&self, alloc: Global) -> Result<Option<u64>, NoMemory>
        requires { (limit : ℕ) × (rows : List Row) × (limit ≤ 2 ^ 40) × IsToldBy limit rows self.now }
        ensures { IfOk result (λ line. line ≡ end_line self.now.state self.now.records) }
    {
        end_line(alloc, &self.bounds, &self.records, &self.tree)
    }
}
