//! One file as a disk: in which order a file's calls are made, and at which places.
//!
//! A `NamedFile` is what a system offers of one file: its length, and a read, a write and a sync
//! that may fail. It is seen as its bytes, where it tells them, and as what a crash may leave; a
//! real one tells nothing, and `MemFile` tells everything. `FileDisk` makes a `Disk` of either. So
//! that it reads and writes at the right places, and all that it is asked to, is proved for each
//! file that tells its bytes, and what is left to trust of a real one is its four calls.
#![tactic(auto)]

mod file_disk;
mod mem_file;
mod named_file;

pub use file_disk::FileDisk;
pub use mem_file::MemFile;
pub use named_file::NamedFile;
