ghost use Rattle.std.specs.Prelude.{ℕ, ◌<◌, ◌≤◌, ◌≡◌, List, length, take, Option, IfOk, OnOk, OnErr};
ghost use Rattle.sig_base.specs.Flow.{Adds, one_more};

use crate::source::Failed;

/// Where bytes go to.
pub trait Sink {
    // The bytes that the sink holds, where it tells them.
    ghost held: { Self → Option (List ℕ) };

    // How many writes failed. It never falls.
    ghost faults: { Self → ℕ };

    /// Takes bytes from the front of `piece`, and answers how many. It is at least one.
    ///
    /// Asks that `piece` isn't empty.
    ///
    /// # Errors
    ///
    /// [`Failed`] only where the sink's count of faults rose in this call, by one. Nothing was taken then.
    /// With any other answer the count is as before.
    fn write(&mut self, piece: &[u8]) -> Result<usize, Failed>
        requires { 0 < length piece.now }
        ensures some { IfOk result (λ n. 0 < n) }
        ensures within { IfOk result (λ n. n ≤ length piece.now) }
        ensures adds { IfOk result (λ n. Adds (held self.old) (held self.new) (take n piece.now)) }
        ensures no_fault { OnOk result (faults self.new ≡ faults self.old) }
        ensures once { OnErr result (faults self.new ≡ one_more (faults self.old)) }
        ensures kept { OnErr result (held self.new ≡ held self.old) }
        ensures count { faults self.old ≤ faults self.new };
}
