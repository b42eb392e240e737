//! Devices that count their failures.

mod counted;
mod fault;
mod files;
mod sink;
mod source;
mod whole;

pub use counted::Counted;
pub use fault::{DeviceFault, FileName};
pub use files::{MOST_BYTES, read_file, write_text};
pub use sink::Sink;
pub use source::Source;
pub use whole::{ReadFault, WriteFailed, read_whole, write_whole};
