//! A disk that may stop at any moment: the model, a disk in memory that keeps it, and one that
//! fails from some call on.
//!
//! A `Disk` is seen as what a read of its file gives, where it tells that, as the set of contents
//! that a crash may leave now, and as a clock with the set of contents that a crash at some moment
//! since an earlier one might have left. Between two syncs each written range may hold any bytes
//! after a crash, and the length lies anywhere between the old and the new; bytes outside stay.
//! After a sync that didn't fail a crash leaves what a read gives, and nothing else. A write that
//! failed counts as one that was made in part.
//!
//! Whoever is generic over `Disk` joins the clauses of calls made one after the other by the lemmas
//! of `specs/Moments`. `MemDisk` keeps a record of its writes and syncs, so what a crash may leave
//! of it can be listed.
#![tactic(auto)]

mod crash;
mod disk;
mod fault;
mod fuse_disk;
mod mem_disk;
mod tape;

pub use disk::Disk;
pub use fault::{Failed, Memory};
pub use fuse_disk::FuseDisk;
pub use mem_disk::{MemDisk, Room};
