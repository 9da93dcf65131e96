//! Images as texts: how a state is spelled out, and what an image says.
#![tactic(auto)]

pub use laws::{
    images_are_exact, images_are_read_again, images_tell_of_beginnings, worked_faults, worked_image,
};

mod laws;
