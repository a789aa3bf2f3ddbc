ghost use Rattle.std.specs.Prelude.{◌≡◌, ◌<◌, ◌^◌};
ghost use Rattle.sig_layout.specs.Summaries.{fresh, after, due_of};
ghost use Rattle.sig_layout.specs.declared.entry.Entry.TheVariants.{Direct, Fetch};
ghost use Rattle.sig_layout.specs.declared.policy.Policy.TheVariants.{Churn, Auto};

use crate::decision::Due;
use crate::entry::Entry;
use crate::policy::{AUTO_FEW, AUTO_RUN, AUTO_SCORE, Policy};

/// What the policies read of the part of a journal behind the last switch.
#[derive(Clone, Copy)]
pub(crate) struct Summary {
    /// Whether buffers are in use.
    pub(crate) installed: bool,
    /// How many signals were put into the outer list.
    pub(crate) directs: u64,
    /// How many fetches there were.
    pub(crate) fetches: u64,
    /// One more for each put into the outer list after a refused try, and one less, but never below
    /// 0, for each other one.
    pub(crate) score: u64,
    /// The score has been `AUTO_SCORE` or more.
    pub(crate) reached: bool,
    /// The fetches in a row that moved less than `AUTO_FEW`, up to here.
    pub(crate) run: u64,
    /// There were `AUTO_RUN` of them in a row.
    pub(crate) whole_run: bool,
}

impl Summary {
    // Of a period that begins.
    pub(crate) fn fresh(installed: bool) -> Summary
        ensures { result ≡ fresh installed }
    {
        Summary {
            installed,
            directs: 0,
            fetches: 0,
            score: 0,
            reached: false,
            run: 0,
            whole_run: false,
        }
    }

    fn after_direct(self, refused: bool) -> Summary
        requires { (self.directs < 2 ^ 63) × (self.score < 2 ^ 63) }
        ensures { result ≡ after self (Direct refused) }
    {
        let score = if refused {
            self.score + 1
        } else {
            self.score.saturating_sub(1)
        };
        Summary {
            installed: self.installed,
            directs: self.directs + 1,
            fetches: self.fetches,
            score,
            reached: self.reached || score >= AUTO_SCORE,
            run: self.run,
            whole_run: self.whole_run,
        }
    }

    fn after_fetch(self, moved: u64) -> Summary
        requires { (self.fetches < 2 ^ 63) × (self.run < 2 ^ 63) }
        ensures { result ≡ after self (Fetch moved) }
    {
        let run = if moved < AUTO_FEW { self.run + 1 } else { 0 };
        Summary {
            installed: self.installed,
            directs: self.directs,
            fetches: self.fetches + 1,
            score: self.score,
            reached: self.reached,
            run,
            whole_run: self.whole_run || run >= AUTO_RUN,
        }
    }

    pub(crate) fn after(self, entry: Entry) -> Summary
        requires { (self.directs < 2 ^ 63) × (self.score < 2 ^ 63) × (self.fetches < 2 ^ 63) × (self.run < 2 ^ 63) }
        ensures { result ≡ after self entry }
    {
        match entry {
            Entry::Direct { refused } => self.after_direct(refused),
            Entry::Fetch { moved } => self.after_fetch(moved),
            Entry::Install => Summary::fresh(true),
            Entry::Remove => Summary::fresh(false),
        }
    }

    pub(crate) fn due(self, policy: Policy) -> Due
        ensures { result ≡ due_of policy self }
    {
        match policy {
            Policy::Never => Due::Nothing,
            Policy::Always if self.installed => Due::Nothing,
            Policy::Always => Due::Install,
            Policy::Churn(n) => self.churned(n),
            Policy::Auto => self.judged(),
        }
    }

    fn churned(self, n: u32) -> Due
        ensures { result ≡ due_of (Churn n) self }
    {
        match (
            self.installed,
            self.fetches < n as u64,
            self.directs < n as u64,
        ) {
            (true, true, _) | (false, _, true) => Due::Nothing,
            (true, false, _) => Due::Remove,
            (false, _, false) => Due::Install,
        }
    }

    fn judged(self) -> Due
        ensures { result ≡ due_of Auto self }
    {
        match (self.installed, self.whole_run, self.reached) {
            (true, true, _) => Due::Remove,
            (false, _, true) => Due::Install,
            _ => Due::Nothing,
        }
    }
}
