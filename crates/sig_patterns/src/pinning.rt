//! Which variables a pattern asks for by `^`.

ghost use Rattle.std.specs.Prelude.{◌≡◌, map};
ghost use Rattle.std.specs.List.{list_any};
ghost use Rattle.sig_patterns.specs.Pinning.{pins};

use crate::pattern::Pattern;
use crate::var::Var;
use sig_terms::bytes::equal_bytes;

/// Whether one of the patterns pins the variable.
#[cycle(pins)]
fn any_pins(items: &[Pattern], var: &Var) -> bool
    ensures { result ≡ list_any (λ b. b) (map (λ p. pins p var.now) items.now) }
{
    for item in items {
        if pins(item, var) {
            return true;
        }
    }
    false
}

/// Whether `^X` stands somewhere in the pattern, for this variable X. (Erlang Reference Manual,
/// Pattern Matching, where a variable that is bound already asks for its value.)
#[cycle(pins)]
pub fn pins(pattern: &Pattern, var: &Var) -> bool
    ensures { result ≡ pins pattern.now var.now }
{
    match pattern {
        Pattern::Pin(own) => equal_bytes(own.0.bytes(), var.0.bytes()),
        Pattern::Tuple(items) => any_pins(items.as_slice(), var),
        Pattern::List(items) => any_pins(items.as_slice(), var),
        Pattern::Cons { head, tail } => pins(head.get(), var) || pins(tail.get(), var),
        _ => false,
    }
}
