//! Laws of images, which tell of a state row by row: a state is made again of its rows, and journals chain.
#![tactic(auto)]

pub use laws::{
    blocks_are_given_back, chains_are_journals, files_are_made_again, ranked_are_reached,
    rows_are_given_back, states_are_made_again,
};

mod laws;
