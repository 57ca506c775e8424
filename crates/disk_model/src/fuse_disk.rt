//! A disk in memory that passes a number of calls and then fails every call.

ghost use Rattle.std.specs.Prelude.{◌≡◌, ◌≤◌, ◌<◌, ◌+◌, ◌-◌, ◌⊎◌, ◌↔◌, ◌++◌, [], ◌∷◌, ℕ, min, Some};
ghost use Rattle.std.specs.Prelude.{None, List, IsTrue, IsErr, is_err, IfOk, OnOk, OnErr, length};
ghost use Rattle.std.specs.Prelude.{take, drop};
ghost use Rattle.std.specs.Option.{ForSome, ForNone};
ghost use Rattle.disk_model.specs.Disk.{Torn, IsWritten, Follows, Only, AddsNothing, Elapses};
ghost use Rattle.disk_model.specs.Disk.{AreCalls, HasCause};
ghost use Rattle.disk_model.specs.Record.{Wrote, Synced};

use crate::{Disk, Failed, MemDisk};

/// A disk in memory that passes a number of calls to the disk within and then fails every call, as
/// if the power had gone.
#[derive(Drop)]
pub struct FuseDisk {
    inner: MemDisk,
    /// How many calls it still passes.
    passes: u32,
    /// How many calls failed since then.
    blown: u64,
}

impl FuseDisk {
    ghost use Rattle.disk_model.specs.FuseDisk.{inner_of, passes_of, calls_of, faults_of, IsBurnt};
    ghost use Rattle.disk_model.specs.MemDisk.{calls_of as mem_calls, faults_of as mem_faults};

    /// The disk within behind a fuse that passes so many calls.
    pub fn new(inner: MemDisk, passes: u32) -> FuseDisk
        ensures inner { inner_of result ≡ inner }
        ensures passes { passes_of result ≡ passes }
        // its counts are those of the disk within
        ensures unblown { (calls_of result ≡ mem_calls inner)
            × (faults_of result ≡ mem_faults inner) }
    {
        FuseDisk {
            inner,
            passes,
            blown: 0,
        }
    }

    /// The disk within, as it stands.
    pub fn into_inner(self) -> MemDisk
        ensures { result ≡ inner_of self }
    {
        let FuseDisk { inner, .. } = self;
        inner
    }

    /// Takes one pass off. It fails where none is left.
    fn burn(&mut self) -> Result<(), Failed>
        ensures { IsBurnt self.old self.new result }
    {
        if self.passes == 0 {
            self.blown = self.blown.saturating_add(1);
            return Err(Failed);
        }
        self.passes -= 1;
        Ok(())
    }
}

impl Disk for FuseDisk {
    ghost use Rattle.disk_model.specs.MemDisk.{content_of, steps_in, images_of, moment_of, left_of};
    ghost use Rattle.disk_model.specs.MemDisk.{FailsNext, IsWornOut, Outgrows, HasSameRecord};
    ghost use Rattle.disk_model.specs.MemDisk.{tells_truth, counts, only};
    ghost use Rattle.disk_model.specs.FuseDisk.{inner_of, passes_of, calls_of, faults_of};
    ghost use Rattle.disk_model.specs.FuseDisk.{HasPassed};

    ghost content = { λ d. Some (content_of (inner_of d)) };

    ghost may_leave = { λ d. images_of (inner_of d) };

    ghost moment = { λ d. moment_of (inner_of d) };

    ghost left_since = { λ d. left_of (inner_of d) };

    ghost calls = { calls_of };

    ghost faults = { faults_of };

    ghost reads_true = { λ d. tells_truth (inner_of d) };

    ghost counts_now = { λ d. counts (inner_of d) };

    ghost only_now = { λ d. only (inner_of d) };

    fn len(&mut self) -> Result<u64, Failed>
        ensures told { ForSome (Some (content_of (inner_of self.old)))
            (λ bytes. IfOk result (λ n. n ≡ length bytes)) }
        ensures same { Some (content_of (inner_of self.new))
            ≡ Some (content_of (inner_of self.old)) }
        ensures crash { AddsNothing (images_of (inner_of self.old))
            (images_of (inner_of self.new)) }
        ensures time { Elapses (moment_of (inner_of self.old)) (moment_of (inner_of self.new))
            (left_of (inner_of self.old)) (left_of (inner_of self.new))
            (images_of (inner_of self.new)) }
        ensures one_call { AreCalls 1 (calls_of self.old) (calls_of self.new) }
        ensures cause { HasCause (faults_of self.old) (faults_of self.new) result }

        // It fails exactly where no pass is left, or the disk within fails.
        ensures exact { IsErr result ↔ ((passes_of self.old ≡ 0) ⊎ FailsNext (inner_of self.old)) }
        ensures passed { passes_of self.new ≡ passes_of self.old - 1 }
        ensures once { HasPassed self.old self.new (is_err result) }
        ensures kept { HasSameRecord (inner_of self.old) (inner_of self.new) }
    {
        self.burn()?;
        self.inner.len()
    }

    fn read(&mut self, at: u64, buf: &mut [u8]) -> Result<usize, Failed>
        ensures told { ForSome (Some (content_of (inner_of self.old)))
            (λ bytes. IfOk result (λ n. (n ≡ min (length buf.old) (length bytes - at))
            × (buf.new ≡ take n (drop at bytes) ++ drop n buf.old))) }
        ensures fits { IfOk result (λ n. n ≤ length buf.old) }
        ensures same { Some (content_of (inner_of self.new))
            ≡ Some (content_of (inner_of self.old)) }
        ensures crash { AddsNothing (images_of (inner_of self.old))
            (images_of (inner_of self.new)) }
        ensures time { Elapses (moment_of (inner_of self.old)) (moment_of (inner_of self.new))
            (left_of (inner_of self.old)) (left_of (inner_of self.new))
            (images_of (inner_of self.new)) }
        ensures one_call { AreCalls 1 (calls_of self.old) (calls_of self.new) }
        ensures cause { HasCause (faults_of self.old) (faults_of self.new) result }

        // It fails exactly where no pass is left, or the disk within fails.
        ensures exact { IsErr result ↔ ((passes_of self.old ≡ 0) ⊎ FailsNext (inner_of self.old)) }
        ensures passed { passes_of self.new ≡ passes_of self.old - 1 }
        ensures once { HasPassed self.old self.new (is_err result) }
        ensures kept { HasSameRecord (inner_of self.old) (inner_of self.new) }
        ensures unread { OnErr result (buf.new ≡ buf.old) }
    {
        self.burn()?;
        self.inner.read(at, buf)
    }

    fn write_at(&mut self, at: u64, bytes: &[u8]) -> Result<(), Failed>
        requires { ForSome (Some (content_of (inner_of self.old))) (λ old. at ≤ length old) }
        ensures written { ForSome (Some (content_of (inner_of self.old)))
            (λ old. IsWritten at bytes.now old (Some (content_of (inner_of self.new))) result) }
        ensures silent { ForNone (Some (content_of (inner_of self.old)))
            (Some (content_of (inner_of self.new)) ≡ None) }
        ensures crash { Follows (Torn at (length bytes.now)) (images_of (inner_of self.old))
            (images_of (inner_of self.new)) }
        ensures time { Elapses (moment_of (inner_of self.old)) (moment_of (inner_of self.new))
            (left_of (inner_of self.old)) (left_of (inner_of self.new))
            (images_of (inner_of self.new)) }
        ensures one_call { AreCalls 1 (calls_of self.old) (calls_of self.new) }
        ensures cause { HasCause (faults_of self.old) (faults_of self.new) result }

        // It fails exactly where no pass is left, or the disk within fails.
        ensures exact { IsErr result ↔ ((passes_of self.old ≡ 0) ⊎ FailsNext (inner_of self.old)
            ⊎ Outgrows (inner_of self.old) at (length bytes.now) ⊎ IsWornOut (inner_of self.old)) }
        ensures passed { passes_of self.new ≡ passes_of self.old - 1 }
        ensures once { HasPassed self.old self.new (is_err result) }
        ensures kept { OnErr result (HasSameRecord (inner_of self.old) (inner_of self.new)) }
        ensures noted { OnOk result (steps_in (inner_of self.new) ≡ steps_in (inner_of self.old)
            ++ Wrote at bytes.now ∷ []) }
    {
        self.burn()?;
        self.inner.write_at(at, bytes)
    }

    fn sync(&mut self) -> Result<(), Failed>
        ensures durable { ForSome (Some (content_of (inner_of self.old)))
            (λ bytes. OnOk result (Only bytes (images_of (inner_of self.new)))) }
        ensures same { Some (content_of (inner_of self.new))
            ≡ Some (content_of (inner_of self.old)) }
        ensures crash { AddsNothing (images_of (inner_of self.old))
            (images_of (inner_of self.new)) }
        ensures time { Elapses (moment_of (inner_of self.old)) (moment_of (inner_of self.new))
            (left_of (inner_of self.old)) (left_of (inner_of self.new))
            (images_of (inner_of self.new)) }
        ensures one_call { AreCalls 1 (calls_of self.old) (calls_of self.new) }
        ensures cause { HasCause (faults_of self.old) (faults_of self.new) result }

        // It fails exactly where no pass is left, or the disk within fails.
        ensures exact { IsErr result ↔ ((passes_of self.old ≡ 0) ⊎ FailsNext (inner_of self.old)
            ⊎ IsWornOut (inner_of self.old)) }
        ensures passed { passes_of self.new ≡ passes_of self.old - 1 }
        ensures once { HasPassed self.old self.new (is_err result) }
        ensures kept { OnErr result (HasSameRecord (inner_of self.old) (inner_of self.new)) }
        ensures noted { OnOk result
            (steps_in (inner_of self.new) ≡ steps_in (inner_of self.old) ++ Synced ∷ []) }
    {
        self.burn()?;
        self.inner.sync()
    }
}
