//! Expressions, patterns and clauses, what they build and match, and the scan of a receive.
#![tactic(auto)]

mod accepting;
mod binding;
mod building;
mod clause;
mod env;
mod expression;
mod found;
mod guard;
mod laws;
mod mark;
mod matching;
mod measure;
mod naming;
mod pattern;
mod pinning;
mod places;
mod scanning;
mod seen;
mod var;

pub use accepting::accepts;
pub use binding::bind_match;
pub use building::{BuildFault, MOST_DEPTH, MOST_NODES, build};
pub use clause::{Clause, Clauses};
pub use env::Env;
pub use expression::{Expr, Exprs};
pub use found::Found;
pub use guard::{Alternatives, Guard, Op, Operand, TermKind, Test, Tests};
pub use laws::{
    a_clause_takes_what_it_matches, a_comparison_is_of_integers, a_hit_tells_its_match,
    a_list_is_a_head_and_a_list, a_pin_compares_with_the_value_before, a_pinned_reference_is_held,
    a_repeated_variable_compares, older_messages_are_skipped, the_limits_of_patterns,
};
pub use mark::{MOST_MARKS, Mark, Reserve};
pub use matching::matches;
pub use pattern::{Pattern, Patterns};
pub use pinning::pins;
pub use scanning::first_match;
pub use var::Var;
