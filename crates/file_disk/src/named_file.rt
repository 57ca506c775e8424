//! What a system offers of one file.

ghost use Rattle.std.specs.Prelude.{◌≡◌, ◌≤◌, ◌⊎◌, ℕ, ◌-◌, ◌++◌, List, Option, None, length, take};
ghost use Rattle.std.specs.Prelude.{drop, IsErr, IfOk, OnOk};
ghost use Rattle.std.specs.Option.{ForSome, ForNone};
ghost use Rattle.disk_model.specs.Disk.{Torn, IsWritten, Follows, Only, AddsNothing, Elapses};

use disk_model::Failed;

/// A file under one name. It needn't be there: then it has no bytes, and the first write makes it.
/// Places and lengths count bytes.
///
/// A file needn't tell what a read of it gives (a real one can't); then nothing is said of its
/// bytes. One that tells goes on telling, and one that doesn't never begins to.
pub trait NamedFile {
    /// What a read of the whole file gives, where the file tells.
    ghost content: { Self → Option (List ℕ) };

    /// What a crash at this moment may leave.
    ghost may_leave: { Self → List ℕ → Type 0 };

    /// The moment, as a number that doesn't fall.
    ghost moment: { Self → ℕ };

    /// What a crash at some moment from that one on might have left.
    ghost left_since: { Self → ℕ → List ℕ → Type 0 };

    /// That its length or a read of it may fail.
    ghost reads_fail: { Self → Type 0 };

    /// That a write of so many bytes at a place may fail.
    ghost writes_fail: { Self → ℕ → ℕ → Type 0 };

    /// That a sync may fail.
    ghost syncs_fail: { Self → Type 0 };

    /// The number of bytes.
    fn length(&self) -> Result<u64, Failed>
        ensures told { ForSome (content self.now) (λ bytes. IfOk result (λ n. n ≡ length bytes)) }
        ensures cause { IsErr result → reads_fail self.now };

    /// Reads some of the bytes from a place on, and says how many. It reads none only where the
    /// buffer takes none, or where the file ends.
    fn read_some(&self, at: u64, buf: &mut [u8]) -> Result<usize, Failed>
        ensures told { ForSome (content self.now) (λ bytes. IfOk result
            (λ n. (n ≤ length bytes - at) × (buf.new ≡ take n (drop at bytes) ++ drop n buf.old))) }
        ensures ends { ForSome (content self.now)
            (λ bytes. IfOk result (λ n. n ≡ 0 → (length buf.old ≡ 0) ⊎ (length bytes ≤ at))) }
        ensures fits { IfOk result (λ n. n ≤ length buf.old) }
        ensures cause { IsErr result → reads_fail self.now };

    /// Writes all of these bytes over what stands there, and past the end. A write that fails may
    /// have been made in part.
    fn write_all(&mut self, at: u64, bytes: &[u8]) -> Result<(), Failed>
        requires { ForSome (content self.old) (λ old. at ≤ length old) }
        ensures written { ForSome (content self.old)
            (λ old. IsWritten at bytes.now old (content self.new) result) }
        ensures silent { ForNone (content self.old) (content self.new ≡ None) }
        ensures crash { Follows (Torn at (length bytes.now)) (may_leave self.old)
            (may_leave self.new) }
        ensures time { Elapses (moment self.old) (moment self.new) (left_since self.old)
            (left_since self.new) (may_leave self.new) }
        ensures cause { IsErr result → writes_fail self.old at (length bytes.now) };

    /// After it, a crash leaves what a read gives.
    fn sync(&mut self) -> Result<(), Failed>
        ensures durable { ForSome (content self.old)
            (λ bytes. OnOk result (Only bytes (may_leave self.new))) }
        ensures same { content self.new ≡ content self.old }
        ensures crash { AddsNothing (may_leave self.old) (may_leave self.new) }
        ensures time { Elapses (moment self.old) (moment self.new) (left_since self.old)
            (left_since self.new) (may_leave self.new) }
        ensures cause { IsErr result → syncs_fail self.old };

    /// What a read gives may be left.
    ghost reads_true: { (file : Self) → ForSome (content file) (may_leave file) };

    /// This moment is one of those since an earlier one.
    ghost counts_now: { (file : Self) (t : ℕ) (c : List ℕ) → t ≤ moment file → may_leave file c →
        left_since file t c };

    /// Since this moment there is no other.
    ghost only_now: { (file : Self) (c : List ℕ) → left_since file (moment file) c →
        may_leave file c };
}
