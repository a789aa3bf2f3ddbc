//! The first place of a variable in a pattern.

ghost use Rattle.std.specs.Prelude.{◌≡◌, map, option_and_then};
ghost use Rattle.std.specs.Option.{option_map};
ghost use Rattle.sig_patterns.specs.Fitting.{term_seen, first_each, first_in};

use crate::pattern::Pattern;
use crate::seen::Seen;
use crate::var::Var;
use sig_terms::Term;
use sig_terms::bytes::equal_bytes;

/// The first place among these patterns, each of which meets the term at its place.
#[cycle(first)]
fn first_in_each<'a>(
    patterns: &'a [Pattern],
    terms: Option<&'a [Term]>,
    var: &Var,
) -> Option<Seen<'a>>
    ensures { option_map term_seen result ≡
        option_and_then (λ ts. first_each (map first_in patterns.now) ts var.now.0) (option_map (λ ts. ts.now) terms.entry) }
{
    let Some(terms) = terms else {
        return None;
    };
    let mut i = 0;
    while i < patterns.len() {
        if i >= terms.len() {
            return None;
        }
        if let Some(seen) = first_in(&patterns[i], Seen::Whole(&terms[i]), var) {
            return Some(seen);
        }
        i += 1;
    }
    None
}

/// What the variable meets where it first stands in the pattern, from the left to the right. `None`
/// where it stands nowhere.
#[cycle(first)]
pub(crate) fn first_in<'a>(pattern: &'a Pattern, seen: Seen<'a>, var: &Var) -> Option<Seen<'a>>
    ensures { option_map term_seen result ≡ first_in pattern.now (term_seen seen.entry) var.now.0 }
{
    match pattern {
        Pattern::Bind(own) => {
            if equal_bytes(var.0.bytes(), own.0.bytes()) {
                Some(seen)
            } else {
                None
            }
        }
        Pattern::Tuple(items) => first_in_each(items.as_slice(), seen.tuple_items(), var),
        Pattern::List(items) => first_in_each(items.as_slice(), seen.list_items(), var),
        Pattern::Cons { head, tail } => {
            let Some((first, rest)) = seen.split_list() else {
                return None;
            };
            match first_in(head.get(), Seen::Whole(first), var) {
                Some(place) => Some(place),
                None => first_in(tail.get(), Seen::Rest(rest), var),
            }
        }
        _other => None,
    }
}
