//! What stands between the compiler and a system: sinks and sources over streams, and a store over a disk.
#![tactic(auto)]

mod disk;
mod disk_store;
mod faults;
mod lines;
mod mem_disk;
mod names;
mod pending;
mod reader;
mod system;
mod words;
mod writer;

pub use disk::Disk;
pub use disk_store::{DiskStore, has_room};
pub use faults::{get_fault, put_fault};
pub use lines::Lines;
pub use mem_disk::{MemDisk, MemFile, MemStep};
pub use names::{is_own, parts, temporary_name};
pub use reader::Reader;
pub use system::{SystemDisk, open_streams, size_limit};
pub use words::{all_words, behind_name};
pub use writer::Writer;
