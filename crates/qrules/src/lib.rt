//! The rules of disk quotas for one user, group or project, and the plain rows that reports are made of.
#![tactic(auto)]

pub use board_row::BoardRow;
pub use graces::{Graces, MAX_GRACE, MAX_MOMENT};
pub use inode_row::InodeRow;
pub use items::Items;
pub use kind::Kind;
pub use limits::{KIB_PER_BLOCK, Limits, MAX_LIMIT};
pub use name_row::NameRow;
pub use over::Over;
pub use principal_name::PrincipalName;
pub use record::{MAX_USE, Record};
pub use record_row::RecordRow;

mod board_row;
mod graces;
mod inode_row;
mod items;
mod kind;
mod limits;
mod name_row;
mod over;
mod principal_name;
mod record;
mod record_row;
