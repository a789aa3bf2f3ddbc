//! What a run wrote, read again.

ghost use Rattle.std.specs.Prelude.{◌≡◌, ℕ, List, [], Option, Some};
ghost use Rattle.sig_edge.specs.Streams.{Reading, Writing};
ghost use Rattle.sig_host.specs.Answers.{IsAnswer};
ghost use Rattle.sig_host.specs.ReadBack.{IsReadBack};
ghost use Rattle.sig_host.specs.declared.status.Status.TheVariants.{Done};

/// What [`run`](crate::run) wrote with `Done`, of an input that shows its bytes to an output that was empty, is the text of the
/// record of a settled run of the script, and of no other record that can be read; and a reader of the definition gives this
/// record back, as `read_record` of sig_record does where there is memory.
pub fn what_run_wrote_is_read_back()
    ensures { (words : List (List ℕ)) (r : Reading) (w : Writing) (summary : Option (List ℕ)) (input output : List ℕ) →
        IsAnswer words r w Done summary → r.left ≡ Some input → w.held ≡ Some [] → w.new ≡ Some output → IsReadBack words input output }
{}
