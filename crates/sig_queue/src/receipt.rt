ghost use Rattle.std.specs.Prelude.{◌≡◌};
ghost use Rattle.sig_queue.specs.declared.account.Account.{Account};
ghost use Rattle.sig_queue.specs.Accounts.{no_account, account_of, followed, MayFollow};
ghost use Rattle.sig_queue.specs.SeatWords.{key_of};

use crate::account::Account;
use crate::rule::SeatAt;
use crate::slot::Slot;
use crate::words::Words;
use atomic_table::{Mark, PerchRule, RuledPerch};
use sig_layout::Knows;
use std::marker::{Brand, Model, PhantomData};

/// What a receipt is to say. The caller's proof picks it.
pub(crate) trait Says {
    ghost account: { Account };
}

impl Says for Brand {
    ghost account = { no_account };
}

struct Stated<G> {
    says: PhantomData<G>,
}

impl<G: Says> PerchRule<Account> for Stated<G> {
    ghost holds = { λ _ _. Unit {0} };

    ghost first = { G.account };
}

/// What was put into a queue that was closed, or into several, one after the other. Only contracts
/// see it: it has no bytes. `close` alone makes one, and it can't be copied.
#[derive(Drop)]
pub struct Receipt {
    /// A seat at the table of the queue, from which a further mark is made.
    like: SeatAt,
    /// What the receipt says.
    mark: Mark<Account>,
}

impl Model for Receipt {
    ghost use Rattle.std.specs.Coded.{codes};
    ghost use Rattle.sig_terms.specs.contracts.term.Term as term;
    ghost use Rattle.sig_queue.specs.declared.account.Account.{Account};

    ghost Value = { Account };

    ghost coded = { Prim.hlevel (codes, term.the_row.coded) };

    ghost view = { λ r. r.mark.view };
}

// A mark that says what the proof picks. The perch is let go at once.
fn state<G: Says>(like: &SeatAt) -> Mark<Account>
    ensures { result.view ≡ G.account }
{
    let (_perch, mark) = RuledPerch::<Slot, Knows, Account, Stated<G>>::new(like, 0);
    mark
}

fn state_of<G: Says>(like: &SeatAt, _words: &Words) -> Mark<Account>
    ensures { result.view ≡ G.account }
{
    state::<G>(like)
}

fn state_both<G: Says>(
    like: &SeatAt,
    _first: &Mark<Account>,
    _later: &Mark<Account>,
) -> Mark<Account>
    ensures { result.view ≡ G.account }
{
    state::<G>(like)
}

impl Receipt {
    // What the seat put into the queue with these words. The other place is any of this queue.
    pub(crate) fn of(seat: &SeatAt, like: SeatAt, words: &Words) -> Receipt
        ensures { result ≡ account_of (key_of words.now) seat.now.me.0.put }
    {
        let mark = state_of::<Brand>(seat, words);
        Receipt { like, mark }
    }

    /// What the later receipt has comes behind what this one has.
    ///
    /// Asks that the later one is of the same receiver, senders and policy, that the receiver keeps
    /// its message queue in the same place, and that the numbers of each sender go on in it: the
    /// sender's first number there is its first number here and as many more as it has put here.
    pub fn follow(&mut self, later: Receipt)
        requires { MayFollow self.old later }
        ensures { self.new ≡ followed self.old later }
    {
        self.mark = state_both::<Brand>(&self.like, &self.mark, &later.mark);
    }
}
