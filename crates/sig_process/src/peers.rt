//! How a process stands to its peers.

ghost use Rattle.std.specs.Prelude.{◌≡◌};
ghost use Rattle.sig_kinds.specs.LinkRules.{is_active, awaited_from};
ghost use Rattle.sig_model.specs.PrintedState.{is_waiting};

use crate::process::Process;
use sig_terms::Pid;

impl Process {
    /// Whether it waits: it is neither ended, nor cut, nor late. It is late where a signal waits for it
    /// whose stamp is at least 2^62.
    pub fn is_waiting(&self) -> bool
        ensures { result ≡ is_waiting self.now.running }
    {
        self.progress.tables.end.is_none() && !(self.is_cut() || self.has_late())
    }

    /// Whether the link to this peer is active. (Erlang Reference Manual, Processes, Links.)
    pub fn linked_to(&self, peer: Pid) -> bool
        ensures { result ≡ is_active self.now.running.state.tables.links peer.0 }
    {
        self.progress.tables.links.active(peer)
    }

    /// The id that is awaited from this peer: that of the last unlink which it hasn't acknowledged.
    /// `None` exactly where none is. (The acknowledgements are this project's own.)
    pub fn awaits(&self, peer: Pid) -> Option<u64>
        ensures { result ≡ awaited_from self.now.running.state.tables.links peer.0 }
    {
        self.progress.tables.links.awaited(peer)
    }
}
