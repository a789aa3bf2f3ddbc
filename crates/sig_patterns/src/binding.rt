ghost use Rattle.std.specs.Prelude.{◌≡◌, [], ◌∷◌, ◌++◌, OnOk, OnErr, IsSome, Some, MatchResult, map};
ghost use Rattle.std.specs.Option.{option_map, option_map_or};
ghost use Rattle.sig_patterns.specs.Matching.{match_of, overlaid};
ghost use Rattle.sig_patterns.specs.Fitting.{term_seen, placed_each, placed, bindings_of};

use crate::env::Env;
use crate::pattern::Pattern;
use crate::seen::Seen;
use crate::var::Var;
use sig_terms::Term;
use std::alloc::{AllocError, Global};

/// A variable, and a term at one of its places in a pattern.
#[derive(Drop)]
struct Binding<'a> {
    var: &'a Var,
    value: Term,
}

/// Adds a copy of what the variable meets.
fn add<'a>(
    alloc: Global,
    var: &'a Var,
    seen: Seen<'_>,
    into: &mut Vec<Binding<'a>>,
) -> Result<(), AllocError>
    ensures { OnOk result (bindings_of into.new.items ≡ bindings_of into.old.items ++ (var.now.0, term_seen seen.entry) ∷ []) }
{
    let value = seen.copy(alloc)?;
    into.push(Binding { var, value })?;
    Ok(())
}

/// Adds what the variables of these patterns meet, where each pattern meets the term at its place.
#[cycle(collect)]
fn collect_each<'a>(
    alloc: Global,
    patterns: &'a [Pattern],
    terms: Option<&[Term]>,
    into: &mut Vec<Binding<'a>>,
) -> Result<(), AllocError>
    ensures { OnOk result (bindings_of into.new.items ≡ bindings_of into.old.items
        ++ option_map_or (placed_each (map placed patterns.now)) (option_map (λ ts. ts.now) terms.entry) []) }
{
    let Some(terms) = terms else {
        return Ok(());
    };
    let mut i = 0;
    while i < patterns.len() {
        if i >= terms.len() {
            return Ok(());
        }
        collect(alloc, &patterns[i], Seen::Whole(&terms[i]), into)?;
        i += 1;
    }
    Ok(())
}

/// Adds what each variable of the pattern meets at each of its places, from the first to the last.
#[cycle(collect)]
fn collect<'a>(
    alloc: Global,
    pattern: &'a Pattern,
    seen: Seen<'_>,
    into: &mut Vec<Binding<'a>>,
) -> Result<(), AllocError>
    ensures { OnOk result (bindings_of into.new.items ≡ bindings_of into.old.items ++ placed pattern.now (term_seen seen.entry)) }
{
    match pattern {
        Pattern::Bind(var) => add(alloc, var, seen, into),
        Pattern::Tuple(items) => collect_each(alloc, items.as_slice(), seen.tuple_items(), into),
        Pattern::List(items) => collect_each(alloc, items.as_slice(), seen.list_items(), into),
        Pattern::Cons { head, tail } => match seen.split_list() {
            Some((first, rest)) => {
                collect(alloc, head.get(), Seen::Whole(first), into)?;
                collect(alloc, tail.get(), Seen::Rest(rest), into)
            }
            None => Ok(()),
        },
        _other => Ok(()),
    }
}

/// Puts the bindings in, from the last to the first. So of a variable that stands there twice the
/// first one stays. Where memory is refused, it takes out again what it has put in.
fn put_in(bindings: &mut Vec<Binding<'_>>, env: &mut Env) -> Result<(), AllocError>
    ensures ok { OnOk result (env.new ≡ overlaid env.old (bindings_of bindings.old.items)) }
    ensures err { OnErr result (env.new ≡ env.old) }
{
    let Some(Binding { var, value }) = bindings.pop() else {
        return Ok(());
    };
    let before = env.replace(var, value)?;
    match put_in(bindings, env) {
        Ok(()) => {
            drop(before);
            Ok(())
        }
        Err(refused) => {
            env.restore(var, before);
            Err(refused)
        }
    }
}

/// Binds the variables of a pattern that matches: the environment becomes the match's.
/// (Erlang Reference Manual, Pattern Matching.)
///
/// `AllocError` comes only where memory is refused, and then the environment is as before. Takes
/// time and memory in the size of what is bound, and no copy of the environment.
///
/// Asks that the pattern matches the term in this environment, as [`matches`](crate::matches)
/// tells.
pub fn bind_match(
    alloc: Global,
    pattern: &Pattern,
    env: &mut Env,
    term: &Term,
) -> Result<(), AllocError>
    requires { IsSome (match_of pattern.now env.old term.now) }
    ensures { MatchResult result (λ _. Some env.new ≡ match_of pattern.now env.old term.now) (λ _. env.new ≡ env.old) }
{
    let mut bindings = Vec::new(alloc);
    collect(alloc, pattern, Seen::Whole(term), &mut bindings)?;
    put_in(&mut bindings, env)
}
