//! The one text of an answer: written, and read again.

mod cut;
mod fault;
mod number;
mod pieces;
mod reader;
mod writer;

pub use fault::TextFault;
pub use pieces::{push_number, push_position};
pub use reader::{MOST_COORDINATE, read_answer};
pub use writer::write;
