//! A down, the message of a monitored process's end, is flushed from the place of a mark, and a receive that
//! uses the mark finds the next message.

ghost use Rattle.std.specs.Prelude.{◌≡◌, ◌<◌, All, IsTrue, IfSome, true};
ghost use Rattle.sig_terms.specs.declared.term.Term.TheVariants as term;
ghost use Rattle.sig_patterns.specs.Environment.{value_of_var};
ghost use Rattle.sig_patterns.specs.Pinning.{pins};

use crate::patterns::var;
use sig_base::Steps;
use sig_inner::{Append, Inner, Scan};
use sig_lists::Sequence;
use sig_patterns::{Clause, Clauses, Env, Pattern, Var, pins};
use sig_terms::{Pid, ReadTerm, Ref, Term, read};
use std::alloc::{AllocError, Global};
use std::marker::Brand;
use std::sync::ledger::{Blank, Ledger};

const MADE: Ref = Ref {
    owner: Pid(0),
    serial: 1,
};

/// Adds a clause of this pattern.
fn add_clause(clauses: &mut Clauses, pattern: Pattern) -> Result<(), AllocError> {
    clauses.add(Clause {
        pattern,
        guard: None,
        target: None,
    })
}

/// Adds the items of the pattern `{^R,V}`.
fn add_items(alloc: Global, items: &mut Sequence<Pattern>) -> Result<(), ReadTerm> {
    items.add(Pattern::Pin(var(alloc, b'R')?))?;
    items.add(Pattern::Bind(var(alloc, b'V')?))?;
    Ok(())
}

/// Adds the clause `{^R,V}`.
fn add_answer(alloc: Global, clauses: &mut Clauses) -> Result<(), ReadTerm> {
    let mut items = Sequence::new(alloc);
    add_items(alloc, &mut items)?;
    add_clause(clauses, Pattern::Tuple(items))?;
    Ok(())
}

fn appends(alloc: Global, queue: &mut Inner, text: &[u8]) -> Result<bool, ReadTerm> {
    let message = read(alloc, text)?;
    if queue.next_arrival() >= 1000 {
        drop(message);
        return Ok(false);
    }
    let appended = queue.append(message);
    let is_added = matches!(appended, Append::Added);
    drop(appended);
    Ok(is_added)
}

/// Whether each clause pins the variable.
fn each_pins(clauses: &[Clause], var: &Var) -> bool
    ensures { IsTrue result → All (λ c. pins c.pattern var.now ≡ true) clauses.now }
{
    for clause in clauses {
        if !pins(&clause.pattern, var) {
            return false;
        }
    }
    true
}

/// The variable's value, where it is a reference.
fn ref_of(env: &Env, var: &Var) -> Option<Ref>
    ensures { IfSome result (λ r. value_of_var env.now var.now.0 ≡ term.Ref r) }
{
    match env.get(var)? {
        Term::Ref(reference) => Some(*reference),
        _ => None,
    }
}

/// Scans from the mark of the variable's reference, where each clause asks for it.
fn receive_marked<L: Ledger>(
    queue: &mut Inner,
    clauses: &Clauses,
    env: &Env,
    var: &Var,
    steps: &mut Steps<L>,
) -> Option<Scan> {
    if clauses.as_slice().len() >= 1000 || !each_pins(clauses.as_slice(), var) {
        return None;
    }
    let reference = ref_of(env, var)?;
    Some(queue.receive(clauses, env, Some(reference), steps))
}

/// Whether the message of the last scan is this one. It is taken out.
fn takes(alloc: Global, queue: &mut Inner, text: &[u8]) -> Result<bool, ReadTerm> {
    let other = read(alloc, text)?;
    if queue.found().is_none() {
        drop(other);
        return Ok(false);
    }
    let message = queue.take();
    let is_so = message.same(&other);
    drop(message);
    drop(other);
    Ok(is_so)
}

/// Whether a receive finds its first message by its first clause.
fn is_first(answer: Option<Scan>) -> bool {
    let first = Scan::Found {
        clause: 1,
        looked: 1,
    };
    answer == Some(first)
}

/// Fills the empty queue, with a flushed down at the place of a mark.
fn fill(alloc: Global, queue: &mut Inner) -> Result<bool, ReadTerm> {
    let mut holds = appends(alloc, queue, b"j")?;
    queue.reserve(1);
    holds &= appends(alloc, queue, b"{'DOWN',#Ref<0.1>,process,<1>,normal}")?;
    holds &= queue.bind(MADE);
    holds &= appends(alloc, queue, b"{#Ref<0.1>,x}")?;
    holds &= queue.flush_down(MADE);
    Ok(holds)
}

/// Whether the clauses of the answer take it by the mark, and the others then the first message.
fn are_taken<L: Ledger>(
    alloc: Global,
    queue: &mut Inner,
    answers: &Clauses,
    others: &Clauses,
    env: &Env,
    asked: &Var,
    steps: &mut Steps<L>,
) -> Result<bool, ReadTerm> {
    let marked = receive_marked(queue, answers, env, asked, steps);
    let mut holds = is_first(marked);
    holds &= takes(alloc, queue, b"{#Ref<0.1>,x}")?;
    if others.as_slice().len() < 1000 {
        let plain = queue.receive(others, env, None, steps);
        holds &= is_first(Some(plain));
    }
    holds &= takes(alloc, queue, b"j")?;
    Ok(holds && queue.is_empty())
}

/// The same of an empty queue, no clauses and an environment without a value, which are filled.
fn fill_and_take<L: Ledger>(
    alloc: Global,
    queue: &mut Inner,
    answers: &mut Clauses,
    others: &mut Clauses,
    env: &mut Env,
    asked: &Var,
    steps: &mut Steps<L>,
) -> Result<bool, ReadTerm> {
    env.set(asked, Term::Ref(MADE))?;
    add_answer(alloc, answers)?;
    add_clause(others, Pattern::Bind(var(alloc, b'J')?))?;
    let is_filled = fill(alloc, queue)?;
    Ok(is_filled & are_taken(alloc, queue, answers, others, env, asked, steps)?)
}

/// The same of new ones, where this variable has the reference.
fn row_holds_with<L: Ledger>(alloc: Global, blank: Blank, asked: &Var) -> Result<bool, ReadTerm>
    requires name { blank.name ≡ L.name }
    requires parts { blank.parts ≡ L.parts }
    requires some { 0 < blank.parts }
{
    let mut queue = Inner::open(alloc, Pid(0))?;
    let mut steps: Steps<L> = Steps::open(blank);
    let mut env = Env::new(alloc);
    let mut answers = Sequence::new(alloc);
    let mut others = Sequence::new(alloc);
    let holds = fill_and_take(
        alloc,
        &mut queue,
        &mut answers,
        &mut others,
        &mut env,
        asked,
        &mut steps,
    );
    drop(others);
    drop(answers);
    drop(env);
    drop(queue);
    holds
}

fn row_holds(alloc: Global) -> Result<bool, ReadTerm> {
    let asked = var(alloc, b'R')?;
    let holds = row_holds_with::<Brand>(alloc, Blank::new(1), &asked);
    drop(asked);
    holds
}

#[test]
fn the_row_holds(rt: HostRuntime) {
    let answer = row_holds(rt.alloc());
    assert!(rt; matches!(answer, Ok(true)));
}
