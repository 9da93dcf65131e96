//! A client of a store that writes script lines into one stream, and reads one line for each from another.
#![tactic(auto)]

pub use bounded_line::{Got, MAX_LINE, next_line};
pub use connection::EndedClient;
pub use counts::{Counting, Counts};
pub use moments::{ClockMoments, Moments, OwnMoments};
pub use response::{BadLine, Response, put_response};
pub use stream_client::StreamClient;
pub use streams::{OpenStreams, Streams};
pub use terms::{Allowance, Terms};
pub use turns::{AT_ONCE, Turns};

mod bounded_line;
mod connection;
mod counts;
mod last_path;
mod moments;
mod response;
mod stream_client;
mod streams;
mod terms;
mod turns;
