//! Files to read and sinks to write to, by what they hold and by how often they failed.
//!
//! Code that reads files is generic over [`Files`], and code that writes over [`Sink`]. Each counts its
//! faults, and a call that answers `Failed` has raised that count. So a program that gives up without a
//! fault of the outside meets no contract that names the count.
//!
//! [`MemFiles`] and [`MemSink`] stand in memory and tell all that they hold. [`RealFiles`] and
//! [`RealSink`] stand over the system, and tell nothing: that the system reads and writes as it should
//! is trusted. What `RealFiles` gives of a file is what a read of some open file gave (`given`), and it
//! can only read. But one that always answered `Absent`, or that each folder is empty, or that read
//! another file, would meet its contract. Only tests speak against that.
#![tactic(auto)]

mod entry_names;
mod mem_files;
mod mem_sink;
mod open_file;
mod read_only;
mod reading;
mod real_files;
mod real_sink;
mod writing;

pub use mem_files::MemFiles;
pub use mem_sink::MemSink;
pub use reading::{FileFail, Files, ReadFail, read_all};
pub use real_files::RealFiles;
pub use real_sink::RealSink;
pub use writing::{Failed, Sink, write_all};
