ghost use Rattle.std.specs.Prelude.{◌≡◌, ◌+◌, map, is_some, false};
ghost use Rattle.std.specs.Option.{option_map, option_map_or};
ghost use Rattle.sig_terms.specs.TermTest.{same_term};
ghost use Rattle.sig_patterns.specs.Environment.{value_of_var};
ghost use Rattle.sig_patterns.specs.Matching.{match_of};
ghost use Rattle.sig_patterns.specs.Fitting.{term_seen, first_in, fits, fits_all};

use crate::env::Env;
use crate::pattern::Pattern;
use crate::places::first_in;
use crate::seen::Seen;
use crate::var::Var;
use sig_base::Steps;
use sig_terms::Term;
use std::sync::ledger::Ledger;

/// A whole pattern, what it meets, and the environment before the match.
#[derive(Clone, Copy)]
pub(crate) struct Against<'a> {
    /// The whole pattern.
    pub(crate) pattern: &'a Pattern,
    /// What it meets.
    pub(crate) seen: Seen<'a>,
    /// The environment before the match.
    pub(crate) env: &'a Env,
}

/// Whether it is the value of the variable.
fn is_value(env: &Env, var: &Var, seen: Seen<'_>) -> bool
    ensures { result ≡ same_term (value_of_var env.now var.now.0) (term_seen seen.entry) }
{
    match env.get(var) {
        Some(value) => Seen::Whole(value).same(seen),
        None => seen.is_atom(b"undefined"),
    }
}

/// Whether it is what the variable meets at its first place in the whole pattern.
fn is_first(whole: Against<'_>, var: &Var, seen: Seen<'_>) -> bool
    ensures { result ≡ option_map_or (λ u. same_term u (term_seen seen.entry))
        (first_in whole.entry.pattern.now (term_seen whole.entry.seen) var.now.0) false }
{
    match first_in(whole.pattern, whole.seen, var) {
        Some(first) => first.same(seen),
        None => false,
    }
}

/// Whether there are as many terms, and each of the patterns fits the term at its place.
#[cycle(fits)]
fn each_fits(patterns: &[Pattern], terms: Option<&[Term]>, whole: Against<'_>) -> bool
    ensures { result ≡ option_map_or
        (fits_all (map (fits whole.entry.env.now (first_in whole.entry.pattern.now (term_seen whole.entry.seen))) patterns.now))
        (option_map (λ ts. ts.now) terms.entry) false }
{
    let Some(terms) = terms else {
        return false;
    };
    if patterns.len() != terms.len() {
        return false;
    }
    let mut i = 0;
    while i < patterns.len() {
        if !fits(&patterns[i], Seen::Whole(&terms[i]), whole) {
            return false;
        }
        i += 1;
    }
    true
}

/// Whether the part of the whole pattern fits what it meets, where each of its variables asks for
/// what the variable meets at its first place in the whole.
#[cycle(fits)]
pub(crate) fn fits(pattern: &Pattern, seen: Seen<'_>, whole: Against<'_>) -> bool
    ensures { result ≡ fits whole.entry.env.now (first_in whole.entry.pattern.now (term_seen whole.entry.seen))
        pattern.now (term_seen seen.entry) }
{
    match pattern {
        Pattern::Any => true,
        Pattern::Bind(var) => is_first(whole, var, seen),
        Pattern::Pin(var) => is_value(whole.env, var, seen),
        Pattern::Int(n) => seen.is_int(*n),
        Pattern::Atom(atom) => seen.is_atom(atom.bytes()),
        Pattern::Pid(pid) => seen.is_pid(*pid),
        Pattern::Tuple(items) => each_fits(items.as_slice(), seen.tuple_items(), whole),
        Pattern::List(items) => each_fits(items.as_slice(), seen.list_items(), whole),
        Pattern::Cons { head, tail } => match seen.split_list() {
            Some((first, rest)) => {
                fits(head.get(), Seen::Whole(first), whole)
                    && fits(tail.get(), Seen::Rest(rest), whole)
            }
            None => false,
        },
    }
}

/// Whether the pattern matches the term in the environment. Counts one step, and takes no memory:
/// in place of bindings it looks up each variable's first place in the pattern, so it takes at most
/// the time of the pattern's nodes times its variables, and of the term's nodes.
/// (Erlang Reference Manual, Pattern Matching.)
pub fn matches<L: Ledger>(pattern: &Pattern, env: &Env, term: &Term, steps: &mut Steps<L>) -> bool
    ensures matched { result ≡ is_some (match_of pattern.now env.now term.now) }
    ensures ticks { steps.new ≡ steps.old + 1 }
{
    steps.tick();
    let seen = Seen::Whole(term);
    fits(pattern, seen, Against { pattern, seen, env })
}
