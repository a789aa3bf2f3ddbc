ghost use Rattle.std.specs.Prelude.{ℕ, ◌<◌, ◌≤◌, ◌≡◌, List, length, Option, IfOk, OnOk, OnErr};
ghost use Rattle.sig_base.specs.declared.end.End.{End};
ghost use Rattle.sig_base.specs.Flow.{Takes, end_after, is_last, one_more};

/// A read or a write failed, and took nothing.
#[derive(Clone, Copy, PartialEq, Eq)]
pub struct Failed;

/// Where bytes come from. It tells contracts how its reads stand to its end: it keeps an [`End`](crate::End),
/// and what that is after each read [`End::after`](crate::End::after) says.
pub trait Source {
    // The bytes that reads will give from here on, where the source tells them.
    ghost left: { Self → Option (List ℕ) };

    // How many reads failed. It never falls.
    ghost faults: { Self → ℕ };

    // How the reads so far stand to the first of them that gave no bytes or failed.
    ghost end: { Self → End };

    /// Places bytes at the front of `into`, and answers how many. 0 is the end of the input.
    ///
    /// Asks that `into` isn't empty.
    ///
    /// # Errors
    ///
    /// [`Failed`] only where the source's count of faults rose in this call, by one. Nothing was taken then.
    /// With any other answer the count is as before.
    fn read(&mut self, into: &mut [u8]) -> Result<usize, Failed>
        requires { 0 < length into.old }
        ensures within { IfOk result (λ n. n ≤ length into.old) }
        ensures takes { IfOk result (λ n. Takes (left self.old) (left self.new) into.new n) }
        ensures no_fault { OnOk result (faults self.new ≡ faults self.old) }
        ensures once { OnErr result (faults self.new ≡ one_more (faults self.old)) }
        ensures ends { end self.new ≡ end_after (is_last result) (end self.old) }
        ensures kept { OnErr result (left self.new ≡ left self.old) }
        ensures count { faults self.old ≤ faults self.new };
}
