//! A file as its users see it: what a read gives, and what a crash may leave.

ghost use Rattle.std.specs.Prelude.{◌≡◌, ◌<◌, ◌≤◌, ℕ, min, ◌-◌, ◌++◌, List, Option, Some, None};
ghost use Rattle.std.specs.Prelude.{length, take, drop, IfOk, OnOk};
ghost use Rattle.std.specs.Option.{ForSome, ForNone};
ghost use Rattle.disk_model.specs.Disk.{Torn, IsWritten, Follows, Only, AddsNothing, Elapses};
ghost use Rattle.disk_model.specs.Disk.{AreCalls, HasCause};

use crate::Failed;

/// A file on a disk that may stop at any moment. Places and lengths count bytes.
///
/// A disk needn't tell what a read of it gives (a real file can't); then nothing is said of its
/// bytes. One that tells goes on telling, and one that doesn't never begins to.
pub trait Disk {
    /// What a read of the whole file gives, where the disk tells.
    ghost content: { Self → Option (List ℕ) };

    /// What a crash at this moment may leave.
    ghost may_leave: { Self → List ℕ → Type 0 };

    /// The moment, as a number that doesn't fall.
    ghost moment: { Self → ℕ };

    /// What a crash at some moment from that one on might have left.
    ghost left_since: { Self → ℕ → List ℕ → Type 0 };

    /// How often the disk was called, if it counts its calls. One that doesn't stands at the last
    /// value of a count.
    ghost calls: { Self → ℕ };

    /// How often the disk has failed.
    ghost faults: { Self → ℕ };

    /// The number of bytes.
    fn len(&mut self) -> Result<u64, Failed>
        ensures told { ForSome (content self.old) (λ bytes. IfOk result (λ n. n ≡ length bytes)) }
        ensures same { content self.new ≡ content self.old }
        ensures crash { AddsNothing (may_leave self.old) (may_leave self.new) }
        ensures time { Elapses (moment self.old) (moment self.new) (left_since self.old)
            (left_since self.new) (may_leave self.new) }
        ensures one_call { AreCalls 1 (calls self.old) (calls self.new) }
        ensures cause { HasCause (faults self.old) (faults self.new) result };

    /// Reads the bytes from a place on, as many as the buffer takes or the file has, and says how
    /// many.
    fn read(&mut self, at: u64, buf: &mut [u8]) -> Result<usize, Failed>
        ensures told { ForSome (content self.old)
            (λ bytes. IfOk result (λ n. (n ≡ min (length buf.old) (length bytes - at))
            × (buf.new ≡ take n (drop at bytes) ++ drop n buf.old))) }
        ensures fits { IfOk result (λ n. n ≤ length buf.old) }
        ensures same { content self.new ≡ content self.old }
        ensures crash { AddsNothing (may_leave self.old) (may_leave self.new) }
        ensures time { Elapses (moment self.old) (moment self.new) (left_since self.old)
            (left_since self.new) (may_leave self.new) }
        ensures one_call { AreCalls 1 (calls self.old) (calls self.new) }
        ensures cause { HasCause (faults self.old) (faults self.new) result };

    /// Writes over what stands there, and past the end. A write that fails may have been made in
    /// part.
    fn write_at(&mut self, at: u64, bytes: &[u8]) -> Result<(), Failed>
        requires { ForSome (content self.old) (λ old. at ≤ length old) }
        ensures written { ForSome (content self.old)
            (λ old. IsWritten at bytes.now old (content self.new) result) }
        ensures silent { ForNone (content self.old) (content self.new ≡ None) }
        ensures crash { Follows (Torn at (length bytes.now)) (may_leave self.old)
            (may_leave self.new) }
        ensures time { Elapses (moment self.old) (moment self.new) (left_since self.old)
            (left_since self.new) (may_leave self.new) }
        ensures one_call { AreCalls 1 (calls self.old) (calls self.new) }
        ensures cause { HasCause (faults self.old) (faults self.new) result };

    /// After it, a crash leaves what a read gives.
    fn sync(&mut self) -> Result<(), Failed>
        ensures durable { ForSome (content self.old)
            (λ bytes. OnOk result (Only bytes (may_leave self.new))) }
        ensures same { content self.new ≡ content self.old }
        ensures crash { AddsNothing (may_leave self.old) (may_leave self.new) }
        ensures time { Elapses (moment self.old) (moment self.new) (left_since self.old)
            (left_since self.new) (may_leave self.new) }
        ensures one_call { AreCalls 1 (calls self.old) (calls self.new) }
        ensures cause { HasCause (faults self.old) (faults self.new) result };

    /// What a read gives may be left.
    ghost reads_true: { (disk : Self) → ForSome (content disk) (may_leave disk) };

    /// This moment is one of those since an earlier one.
    ghost counts_now: { (disk : Self) (t : ℕ) (c : List ℕ) → t ≤ moment disk → may_leave disk c →
        left_since disk t c };

    /// Since this moment there is no other.
    ghost only_now: { (disk : Self) (c : List ℕ) → left_since disk (moment disk) c →
        may_leave disk c };
}
