//! For tests: contents that a crash may leave of a file in memory, listed from its record.

ghost use Rattle.std.specs.Prelude.{◌≡◌, ◌≤◌, ◌<◌, ◌+◌, ◌-◌, ◌^◌, [], ◌∷◌, ◌++◌, List, ℕ, IfOk};
ghost use Rattle.std.specs.Prelude.{OnOk, All, Contains, length, take, drop, replicate};
ghost use Rattle.disk_model.specs.Disk.{Torn};
ghost use Rattle.disk_model.specs.Record.{Step, put};
ghost use Rattle.disk_model.specs.Crash.{AreImages, AreTorn, HaveCuts, HaveCutsOf, HaveAllCuts};
ghost use Rattle.disk_model.specs.Crash.{IsTornOf, IsReplay, contents, mark_bytes, step_of};

use crate::tape::{Mark, Tape};
use std::alloc::{AllocError, Global};

/// A file that is written again from its record.
#[derive(Drop)]
struct Replay {
    /// What a read gives.
    now: Vec<u8>,
    /// Contents that a crash may leave.
    images: Vec<Vec<u8>>,
}

impl Tape {
    ghost use Rattle.disk_model.specs.Tape.{tape_steps};

    /// Contents that a crash right after so many writes and syncs may leave.
    pub(crate) fn images_at(
        &self,
        alloc: Global,
        moment: usize,
        garbage: u8,
    ) -> Result<Vec<Vec<u8>>, AllocError>
        requires { moment ≤ length self.now.marks.items }
        ensures each { IfOk result (λ images.
            AreImages self.now.start.items (take moment (tape_steps self.now)) images.items) }
        ensures cuts { IfOk result (λ images.
            HaveCuts self.now.start.items (take moment (tape_steps self.now)) images.items) }
    {
        let mut replay = Replay {
            now: Vec::from_slice(alloc, &self.start)?,
            images: one_image(alloc, &self.start)?,
        };
        let mut rest = self.written.as_slice();
        for mark in &self.marks.as_slice()[..moment] {
            let (bytes, later) = rest.split_at(mark.size());
            replay = replay.after(alloc, *mark, bytes, garbage)?;
            rest = later;
        }
        let Replay { images, .. } = replay;
        Ok(images)
    }
}

impl Mark {
    /// How many bytes were written.
    fn size(self) -> usize
        ensures { result ≡ mark_bytes self }
    {
        match self {
            Mark::Write { len, .. } => len as usize,
            Mark::Sync => 0,
        }
    }
}

impl Replay {
    /// The file after one step more, with its bytes.
    fn after(
        self,
        alloc: Global,
        mark: Mark,
        bytes: &[u8],
        garbage: u8,
    ) -> Result<Replay, AllocError>
        ensures { IfOk result (λ next. (start : List ℕ) (steps : List Step) →
            IsReplay start steps self.now.items self.images.items → IsReplay start
            (steps ++ step_of mark bytes.now ∷ []) next.now.items next.images.items) }
    {
        let Replay { now, images } = self;
        match mark {
            Mark::Write { at, .. } => Ok(Replay {
                now: put_copy(alloc, &now, at as usize, bytes)?,
                images: torn_images(alloc, &images, at as usize, bytes, garbage)?,
            }),
            Mark::Sync => {
                let images = one_image(alloc, &now)?;
                Ok(Replay { now, images })
            }
        }
    }
}

fn one_image(alloc: Global, bytes: &[u8]) -> Result<Vec<Vec<u8>>, AllocError>
    ensures only { IfOk result (λ images. All (λ image. image.items ≡ bytes.now) images.items) }
    ensures listed { IfOk result (λ images. Contains (contents images.items) bytes.now) }
{
    let mut images = Vec::new(alloc);
    images.push(Vec::from_slice(alloc, bytes)?)?;
    Ok(images)
}

/// What a write may make of each of these images, if a crash cuts it short.
fn torn_images(
    alloc: Global,
    images: &[Vec<u8>],
    at: usize,
    bytes: &[u8],
    garbage: u8,
) -> Result<Vec<Vec<u8>>, AllocError>
    requires { at < 2 ^ 32 }
    ensures each { IfOk result
        (λ torn. All (IsTornOf at (length bytes.now) images.now) torn.items) }
    ensures cuts { IfOk result (λ torn. HaveAllCuts at bytes.now images.now torn.items) }
{
    let mut torn = Vec::new(alloc);
    for image in images {
        let mut more = torn_image(alloc, image, at, bytes, garbage)?;
        torn.append(&mut more)?;
    }
    Ok(torn)
}

/// For each number of bytes up to all of them the image with just these written, and with garbage
/// in the place of the others. An image that ends before the place stays as it is.
fn torn_image(
    alloc: Global,
    image: &[u8],
    at: usize,
    bytes: &[u8],
    garbage: u8,
) -> Result<Vec<Vec<u8>>, AllocError>
    requires { at < 2 ^ 32 }
    ensures each { IfOk result (λ torn. AreTorn at (length bytes.now) image.now torn.items) }
    ensures cuts { IfOk result (λ torn. HaveCutsOf at bytes.now image.now torn.items) }
{
    if at > image.len() {
        return one_image(alloc, image);
    }
    let size = bytes.len();
    let mut torn = Vec::new(alloc);
    for cut in 0..size {
        torn.push(part_copy(alloc, image, at, &bytes[..cut], size)?)?;
        let garbled = garble(alloc, bytes, cut, garbage)?;
        torn.push(part_copy(alloc, image, at, &garbled, size)?)?;
    }
    torn.push(part_copy(alloc, image, at, bytes, size)?)?;
    Ok(torn)
}

/// The first bytes, and garbage in the place of the others.
fn garble(alloc: Global, bytes: &[u8], cut: usize, garbage: u8) -> Result<Vec<u8>, AllocError>
    requires { cut ≤ length bytes.now }
    ensures { IfOk result (λ garbled.
        garbled.items ≡ take cut bytes.now ++ replicate (length bytes.now - cut) garbage) }
{
    let mut garbled = Vec::from_slice(alloc, &bytes[..cut])?;
    garbled.resize(bytes.len(), garbage)?;
    Ok(garbled)
}

/// A copy with a part of a write of this size, or with other bytes in its place.
fn part_copy(
    alloc: Global,
    image: &[u8],
    at: usize,
    part: &[u8],
    size: usize,
) -> Result<Vec<u8>, AllocError>
    requires small { at < 2 ^ 32 }
    requires within { at ≤ length image.now }
    requires part { length part.now ≤ size }
    ensures torn { IfOk result (λ copy. Torn at size image.now copy.items) }
    ensures is { IfOk result (λ copy. copy.items ≡ put image.now at part.now) }
{
    put_copy(alloc, image, at, part)
}

/// A copy with these bytes over those that stand there, and past the end.
fn put_copy(alloc: Global, image: &[u8], at: usize, bytes: &[u8]) -> Result<Vec<u8>, AllocError>
    requires { at < 2 ^ 32 }
    ensures { IfOk result (λ copy. copy.items ≡ put image.now at bytes.now) }
{
    let front = at.min(image.len());
    let behind = (at + bytes.len()).min(image.len());
    let mut copy = Vec::with_capacity(alloc, front + bytes.len())?;
    copy.extend_from_slice(&image[..front])?;
    copy.extend_from_slice(bytes)?;
    copy.extend_from_slice(&image[behind..])?;
    Ok(copy)
}
