//! The edge of the program: files that are read or created, and streams that are written to.
//!
//! A desk and a sink are traits, so a program is proved for every implementation of them. If a desk
//! tells its files, `read_file` returns all bytes of the named one or the reason why it does not.
//! `write_whole` appends all that it is given to the created file, or a part from the front and
//! returns an error. If a sink tells its bytes, `send_whole` does the same there. A fault is
//! returned only if a count of faults of that desk or sink rose. A desk has one count for reading
//! and one for writing.
//!
//! A desk and a sink in memory tell all, and fail when they are asked to. The real ones are the
//! edge to the system, and count their faults. A real sink tells what its writer tells. A real desk
//! tells no files, but each of its reads and writes tells what std says of the open file.
#![tactic(auto)]

mod desk;
mod faults;
mod mem_desk;
mod mem_sink;
mod read;
mod real_desk;
mod real_sink;
mod sink;
mod system;
mod write;

pub use desk::{Desk, DeskFault};
pub use mem_desk::MemDesk;
pub use mem_sink::MemSink;
pub use read::{ReadEnd, read_file};
pub use real_desk::RealDesk;
pub use real_sink::RealSink;
pub use sink::{Sink, send_whole};
pub use write::write_whole;
