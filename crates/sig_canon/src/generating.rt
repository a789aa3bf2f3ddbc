//! The generated script.

ghost use Rattle.std.specs.Prelude.{◌≡◌, ◌≤◌, ◌∷◌, [], ◌++◌, map, true, IfOk, OnOk};
ghost use Rattle.std.specs.List.{flat_map, range_with_len};
ghost use Rattle.sig_terms.specs.Words.{is_token, is_atom};
ghost use Rattle.sig_patterns.specs.declared.expression.Expr.TheVariants as expr;
ghost use Rattle.sig_patterns.specs.declared.pattern.Pattern.TheVariants as pattern;
ghost use Rattle.sig_canon.specs.Generated.{
  var_named,
  call_parts,
  hub_receive,
  answer_message,
  hub_answer,
  hub,
  watch_hub,
  bind_mark,
  call_message,
  send_call,
  answer_clause,
  down_clause,
  await_answer,
  call,
  client,
  client_names,
  generated,
};

use sig_kinds::{AliasMode, QueueData};
use sig_lists::Sequence;
use sig_patterns::{Clause, Clauses, Expr, Exprs, Pattern, Patterns, Var};
use sig_program::{
    Instr, Instrs, Label, Labels, MOST_TURNS, Proc, Procs, Receiving, Script, Version,
};
use sig_terms::Pid;
use sig_tokens::{atom_of, name_of};
use std::alloc::{AllocError, Global};

/// The most calls of each client of a generated script.
pub const MOST_CALLS: u32 = 800;

/// How many instructions a call has.
const CALL_INSTRS: u32 = 5;

fn var_of(alloc: Global, word: &[u8]) -> Result<Var, AllocError>
    requires { is_token word.now ≡ true }
    ensures { IfOk result (λ v. v.0 ≡ word.now) }
{
    name_of(alloc, word).map(Var)
}

/// Adds the atom as a pattern.
fn add_word(alloc: Global, parts: &mut Patterns, word: &[u8]) -> Result<(), AllocError>
    requires { is_atom word.now ≡ true }
    ensures { OnOk result (parts.new ≡ parts.old ++ pattern.Atom word.now ∷ []) }
{
    let atom = atom_of(alloc, word)?;
    parts.add(Pattern::Atom(atom))
}

/// Adds the variable as a pattern that anything matches.
fn add_bind(alloc: Global, parts: &mut Patterns, word: &[u8]) -> Result<(), AllocError>
    requires { is_token word.now ≡ true }
    ensures { OnOk result (parts.new ≡ parts.old ++ pattern.Bind (var_named word.now) ∷ []) }
{
    let var = var_of(alloc, word)?;
    parts.add(Pattern::Bind(var))
}

/// Adds the variable as a pattern that its value matches.
fn add_pin(alloc: Global, parts: &mut Patterns, word: &[u8]) -> Result<(), AllocError>
    requires { is_token word.now ≡ true }
    ensures { OnOk result (parts.new ≡ parts.old ++ pattern.Pin (var_named word.now) ∷ []) }
{
    let var = var_of(alloc, word)?;
    parts.add(Pattern::Pin(var))
}

/// Adds the variable as an expression.
fn add_var(alloc: Global, parts: &mut Exprs, word: &[u8]) -> Result<(), AllocError>
    requires { is_token word.now ≡ true }
    ensures { OnOk result (parts.new ≡ parts.old ++ expr.Var (var_named word.now) ∷ []) }
{
    let var = var_of(alloc, word)?;
    parts.add(Expr::Var(var))
}

/// `call`, `R` and `V`
fn add_call_parts(alloc: Global, parts: &mut Patterns) -> Result<(), AllocError>
    ensures { OnOk result (parts.new ≡ parts.old ++ call_parts) }
{
    add_word(alloc, parts, b"call")?;
    add_bind(alloc, parts, b"R")?;
    add_bind(alloc, parts, b"V")
}

/// `receive` with `on {call,R,V} -> answer`
fn add_hub_receive(alloc: Global, instrs: &mut Instrs) -> Result<(), AllocError>
    ensures { OnOk result (instrs.new ≡ instrs.old ++ hub_receive ∷ []) }
{
    let mut parts = Sequence::new(alloc);
    add_call_parts(alloc, &mut parts)?;
    let mut clauses = Sequence::new(alloc);
    clauses.add(Clause {
        pattern: Pattern::Tuple(parts),
        guard: None,
        target: Some(1),
    })?;
    instrs.add(Instr::Receive(Receiving {
        using: None,
        clauses,
        after: None,
    }))
}

/// `{R,V}`
fn make_answer(alloc: Global) -> Result<Expr, AllocError>
    ensures { IfOk result (λ e. e ≡ answer_message) }
{
    let mut parts = Sequence::new(alloc);
    add_var(alloc, &mut parts, b"R")?;
    add_var(alloc, &mut parts, b"V")?;
    Ok(Expr::Tuple(parts))
}

/// `send R {R,V}`
fn add_hub_answer(alloc: Global, instrs: &mut Instrs) -> Result<(), AllocError>
    ensures { OnOk result (instrs.new ≡ instrs.old ++ hub_answer ∷ []) }
{
    let to = var_of(alloc, b"R")?;
    let message = make_answer(alloc)?;
    instrs.add(Instr::Send {
        to: Expr::Var(to),
        message,
    })
}

fn add_label(alloc: Global, labels: &mut Labels, word: &[u8], place: u32) -> Result<(), AllocError>
    requires { is_token word.now ≡ true }
    ensures { OnOk result (labels.new ≡ labels.old ++ record { name = word.now; place = place } ∷ []) }
{
    let name = name_of(alloc, word)?;
    labels.add(Label { name, place })
}

#[tactic(auto, unfolding(crate::specs::Generated::hub))]
fn add_hub_labels(alloc: Global, labels: &mut Labels) -> Result<(), AllocError>
    ensures { OnOk result (labels.new ≡ labels.old ++ hub.labels) }
{
    add_label(alloc, labels, b"loop", 1)?;
    add_label(alloc, labels, b"answer", 2)
}

#[tactic(auto, unfolding(crate::specs::Generated::hub))]
fn add_hub_instrs(alloc: Global, instrs: &mut Instrs) -> Result<(), AllocError>
    ensures { OnOk result (instrs.new ≡ instrs.old ++ hub.instrs) }
{
    add_hub_receive(alloc, instrs)?;
    add_hub_answer(alloc, instrs)?;
    instrs.add(Instr::Goto { label: 0 })
}

/// The process that answers each call.
#[tactic(auto, unfolding(crate::specs::Generated::hub), using(crate::proofs::GeneratedLemmas::hub_within))]
fn make_hub(alloc: Global) -> Result<Proc, AllocError>
    ensures { IfOk result (λ p. p ≡ hub) }
{
    let mut labels = Sequence::new(alloc);
    let mut instrs = Sequence::new(alloc);
    add_hub_labels(alloc, &mut labels)?;
    add_hub_instrs(alloc, &mut instrs)?;
    let name = name_of(alloc, b"hub")?;
    Ok(Proc {
        name,
        queue_data: QueueData::OffHeap,
        labels,
        instrs,
    })
}

/// `monitor M @hub reply_demonitor`
fn add_watch(alloc: Global, instrs: &mut Instrs) -> Result<(), AllocError>
    ensures { OnOk result (instrs.new ≡ instrs.old ++ watch_hub ∷ []) }
{
    let var = var_of(alloc, b"M")?;
    instrs.add(Instr::Monitor {
        var,
        target: Expr::Pid(Pid(0)),
        mode: Some(AliasMode::ReplyDemonitor),
    })
}

/// `bind M`
fn add_mark(alloc: Global, instrs: &mut Instrs) -> Result<(), AllocError>
    ensures { OnOk result (instrs.new ≡ instrs.old ++ bind_mark ∷ []) }
{
    let var = var_of(alloc, b"M")?;
    instrs.add(Instr::Bind { var })
}

/// `{call,M,K}`
fn make_message(alloc: Global, k: u32) -> Result<Expr, AllocError>
    ensures { IfOk result (λ e. e ≡ call_message k) }
{
    let word = atom_of(alloc, b"call")?;
    let mut parts = Sequence::new(alloc);
    parts.add(Expr::Atom(word))?;
    add_var(alloc, &mut parts, b"M")?;
    parts.add(Expr::Int(i64::from(k)))?;
    Ok(Expr::Tuple(parts))
}

/// `send @hub {call,M,K}`
fn add_send(alloc: Global, instrs: &mut Instrs, k: u32) -> Result<(), AllocError>
    ensures { OnOk result (instrs.new ≡ instrs.old ++ send_call k ∷ []) }
{
    let message = make_message(alloc, k)?;
    instrs.add(Instr::Send {
        to: Expr::Pid(Pid(0)),
        message,
    })
}

/// `on {^M,V}`
fn add_answer_clause(alloc: Global, clauses: &mut Clauses) -> Result<(), AllocError>
    ensures { OnOk result (clauses.new ≡ clauses.old ++ answer_clause ∷ []) }
{
    let mut parts = Sequence::new(alloc);
    add_pin(alloc, &mut parts, b"M")?;
    add_bind(alloc, &mut parts, b"V")?;
    clauses.add(Clause {
        pattern: Pattern::Tuple(parts),
        guard: None,
        target: None,
    })
}

/// `{'DOWN',^M,process,_,V}`
fn make_down(alloc: Global) -> Result<Pattern, AllocError>
    ensures { IfOk result (λ p. p ≡ down_clause.pattern) }
{
    let room = Vec::with_capacity(alloc, 5)?;
    let mut parts = Sequence::from_vec(room);
    add_word(alloc, &mut parts, b"DOWN")?;
    add_pin(alloc, &mut parts, b"M")?;
    add_word(alloc, &mut parts, b"process")?;
    parts.add(Pattern::Any)?;
    add_bind(alloc, &mut parts, b"V")?;
    Ok(Pattern::Tuple(parts))
}

/// `on {'DOWN',^M,process,_,V}`
fn add_down_clause(alloc: Global, clauses: &mut Clauses) -> Result<(), AllocError>
    ensures { OnOk result (clauses.new ≡ clauses.old ++ down_clause ∷ []) }
{
    let pattern = make_down(alloc)?;
    clauses.add(Clause {
        pattern,
        guard: None,
        target: None,
    })
}

/// `receive using M` with the clauses of the answer and of the hub's end.
fn add_await(alloc: Global, instrs: &mut Instrs) -> Result<(), AllocError>
    ensures { OnOk result (instrs.new ≡ instrs.old ++ await_answer ∷ []) }
{
    let mut clauses = Sequence::new(alloc);
    add_answer_clause(alloc, &mut clauses)?;
    add_down_clause(alloc, &mut clauses)?;
    let using = var_of(alloc, b"M")?;
    instrs.add(Instr::Receive(Receiving {
        using: Some(using),
        clauses,
        after: None,
    }))
}

/// The instructions of call number `k` behind these.
fn add_call(alloc: Global, instrs: &mut Instrs, k: u32) -> Result<(), AllocError>
    ensures { OnOk result (instrs.new ≡ instrs.old ++ call k) }
{
    instrs.add(Instr::Reserve)?;
    add_watch(alloc, instrs)?;
    add_mark(alloc, instrs)?;
    add_send(alloc, instrs, k)?;
    add_await(alloc, instrs)
}

/// The instructions of `n` calls.
#[tactic(auto, using(crate::proofs::GeneratedLemmas::call_more))]
fn make_calls(alloc: Global, n: u32) -> Result<Instrs, AllocError>
    requires { n ≤ MOST_CALLS }
    ensures { IfOk result (λ is. is ≡ flat_map call (range_with_len 1 n)) }
{
    let room = Vec::with_capacity(alloc, (CALL_INSTRS * n) as usize)?;
    let mut instrs = Sequence::from_vec(room);
    for k in 0..n {
        add_call(alloc, &mut instrs, k + 1)?;
    }
    Ok(instrs)
}

/// Adds a client that makes `n` calls.
#[tactic(auto, unfolding(crate::specs::Generated::client))]
fn add_client(alloc: Global, procs: &mut Procs, name: &[u8], n: u32) -> Result<(), AllocError>
    requires few { n ≤ MOST_CALLS }
    requires name { is_token name.now ≡ true }
    ensures { OnOk result (procs.new ≡ procs.old ++ client n name.now ∷ []) }
{
    let instrs = make_calls(alloc, n)?;
    let name = name_of(alloc, name)?;
    let client = Proc {
        name,
        queue_data: QueueData::OffHeap,
        labels: Sequence::new(alloc),
        instrs,
    };
    procs.add(client)
}

/// Adds two clients.
fn add_two(
    alloc: Global,
    procs: &mut Procs,
    first: &[u8],
    second: &[u8],
    n: u32,
) -> Result<(), AllocError>
    requires few { n ≤ MOST_CALLS }
    requires first { is_token first.now ≡ true }
    requires second { is_token second.now ≡ true }
    ensures { OnOk result (procs.new ≡ procs.old ++ client n first.now ∷ client n second.now ∷ []) }
{
    add_client(alloc, procs, first, n)?;
    add_client(alloc, procs, second, n)
}

/// Adds the eight clients.
fn add_clients(alloc: Global, procs: &mut Procs, n: u32) -> Result<(), AllocError>
    requires { n ≤ MOST_CALLS }
    ensures { OnOk result (procs.new ≡ procs.old ++ map (client n) client_names) }
{
    add_two(alloc, procs, b"c0", b"c1", n)?;
    add_two(alloc, procs, b"c2", b"c3", n)?;
    add_two(alloc, procs, b"c4", b"c5", n)?;
    add_two(alloc, procs, b"c6", b"c7", n)
}

/// Adds the nine processes.
#[tactic(auto, unfolding(crate::specs::Generated::generated))]
fn add_procs(alloc: Global, procs: &mut Procs, n: u32) -> Result<(), AllocError>
    requires { n ≤ MOST_CALLS }
    ensures { OnOk result (procs.new ≡ procs.old ++ (generated n).procs) }
{
    let hub = make_hub(alloc)?;
    procs.add(hub)?;
    add_clients(alloc, procs, n)
}

/// The generated script: a hub that answers calls, and eight clients, each of which makes `n` calls
/// over a monitor that is an alias too, with a marker before the answer. The error is want of
/// memory. (The language of scripts is this project's own.)
///
/// Asks that `n` is at least 1 and at most [`MOST_CALLS`]: three instructions of the hub for each
/// of `8 * n` calls are within its turns.
#[tactic(auto, unfolding(crate::specs::Generated::generated), using(crate::proofs::GeneratedLemmas::generated_sound))]
pub fn generate(alloc: Global, n: u32) -> Result<Script, AllocError>
    requires some { 1 ≤ n }
    requires few { n ≤ MOST_CALLS }
    ensures { IfOk result (λ s. s ≡ generated n) }
{
    let mut procs = Sequence::new(alloc);
    add_procs(alloc, &mut procs, n)?;
    Ok(Script {
        version: Version::One,
        turns: MOST_TURNS,
        procs,
    })
}
