//! Text, places and the outside world. A layer above reads a named file whole by `read_whole` over a
//! `Shelf`, writes by `write_whole` to a `Sink`, and learns from the last call and the count of faults why one failed.
#![tactic(auto)]

mod answer;
mod bytes;
mod calls;
mod lines;
mod memory;
mod memory_shelf;
mod memory_sink;
mod os_shelf;
mod os_sink;
mod place;
mod reading;
mod shelf;
mod sink;
#[cfg(test)]
mod tests;
mod text;
mod writing;

pub use answer::{Got, LastCall, Opened};
pub use bytes::Bytes;
pub use calls::LARGEST_PIECE;
pub use lines::joined_lines;
pub use memory::NoMemory;
pub use memory_shelf::MemoryShelf;
pub use memory_sink::MemorySink;
pub use os_shelf::OsShelf;
pub use os_sink::OsSink;
pub use place::Place;
pub use reading::{ReadRefusal, read_whole};
pub use shelf::Shelf;
pub use sink::Sink;
pub use text::Text;
pub use writing::{Wrote, write_whole};
