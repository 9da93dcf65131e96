//! The words of all texts, both ways: pieces of lines for any writer, and the words of a line with their numbers and
//! data; and how a caller asks to be told what came of scripts and journals.
#![tactic(auto)]

pub use cut::{CutLine, cut_line};
pub use data::{byte_of, data_of};
pub use format::Format;
pub use numbers::{id_of, number, number_of};
pub use piece::Piece;
pub use read_fault::ReadFault;
pub use refused_write::RefusedWrite;
pub use report_moment::ReportMoment;
pub use rule_words::{kind_word, over_word};
pub use telling::Telling;
pub use text_fault::{TextFault, TextKind};
pub use text_line::{HEAD_ROOM, LINE_ROOM, TextLine, WORD_ROOM};
pub use view::View;
pub use word::first_part;
pub use writing::{Written, put, put_pieces};

mod cut;
mod data;
mod format;
mod hex_bytes;
mod hex_digits;
mod numbers;
mod piece;
mod printing;
mod read_fault;
mod refused_write;
mod report_moment;
mod rule_words;
mod telling;
mod text_fault;
mod text_line;
mod view;
mod word;
mod writing;
