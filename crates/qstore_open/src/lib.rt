//! A store of the rows of an image, which is opened as it is audited.
#![tactic(auto)]

pub use image_fault::ImageFault;
pub use image_kind::ImageKind;
pub use lines::take_lines;
pub use open_fault::OpenFault;
pub use opening::Opening;
pub use row_fault::RowFault;

mod bounds;
mod ending;
mod image_fault;
mod image_kind;
mod last_name;
mod lines;
mod named;
mod open_fault;
mod opening;
mod reach;
mod records;
mod row_fault;
mod texts;
mod uses;
