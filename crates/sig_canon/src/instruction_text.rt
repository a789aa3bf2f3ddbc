//! The lines of instructions.

ghost use Rattle.std.specs.Prelude.{◌≡◌, [], ◌∷◌, map, codes};
ghost use Rattle.std.specs.List.{concat, flat_map};
ghost use Rattle.sig_terms.specs.Putting.{IsPut};
ghost use Rattle.sig_canon.specs.ScriptText.{
  name_of_place,
  names_of,
  expr_text,
  after_blank,
  spaced,
  flag_text,
  mode_text,
  switch_text,
  target_text,
  marker_text,
  clause_line,
  after_lines,
  instr_lines,
  line_text,
};
ghost use Rattle.sig_canon.specs.Printing.{first_of, rest_of, inside_lines};
ghost use Rattle.sig_program.specs.declared.label.Label.{Label};

use crate::expression_text::put_expr;
use crate::guard_text::put_guard;
use crate::pattern_text::put_pattern;
use crate::putting::{put, put_word};
use sig_kinds::AliasMode;
use sig_patterns::{Clause, Expr, Var};
use sig_program::{After, Instr, Label, Proc, Receiving};
use std::alloc::AllocError;

/// The name of the label at this place among the labels, from 0, in constant time.
fn label_name(labels: &[Label], place: u32) -> &[u8]
    ensures { result.now ≡ name_of_place (map (λ (l : Label). l.name) labels.now) place }
{
    match labels.get(place as usize) {
        Some(label) => label.name.bytes(),
        None => b"",
    }
}

/// Appends a blank and the expression.
fn put_operand(into: &mut Vec<u8>, procs: &[Proc], expr: &Expr) -> Result<(), AllocError>
    ensures { IsPut into.old.items into.new.items (after_blank (expr_text (names_of procs.now) expr.now)) result }
{
    put(into, b" ")?;
    put_expr(into, procs, expr)
}

/// Appends a word and a variable.
fn put_var(into: &mut Vec<u8>, word: &[u8], var: &Var) -> Result<(), AllocError>
    ensures { IsPut into.old.items into.new.items (spaced word.now (var.now.0 ∷ [])) result }
{
    put(into, word)?;
    put_word(into, var.0.bytes())
}

/// Appends a word and an expression.
fn put_one(into: &mut Vec<u8>, procs: &[Proc], word: &[u8], expr: &Expr) -> Result<(), AllocError>
    ensures { IsPut into.old.items into.new.items (spaced word.now (expr_text (names_of procs.now) expr.now ∷ [])) result }
{
    put(into, word)?;
    put_operand(into, procs, expr)
}

/// Appends a word and two expressions.
fn put_two(
    into: &mut Vec<u8>,
    procs: &[Proc],
    word: &[u8],
    first: &Expr,
    second: &Expr,
) -> Result<(), AllocError>
    ensures { IsPut into.old.items into.new.items
        (spaced word.now (expr_text (names_of procs.now) first.now ∷ expr_text (names_of procs.now) second.now ∷ [])) result }
{
    put_one(into, procs, word, first)?;
    put_operand(into, procs, second)
}

/// Appends a word, a variable and an expression.
fn put_var_and(
    into: &mut Vec<u8>,
    procs: &[Proc],
    word: &[u8],
    var: &Var,
    expr: &Expr,
) -> Result<(), AllocError>
    ensures { IsPut into.old.items into.new.items (spaced word.now (var.now.0 ∷ expr_text (names_of procs.now) expr.now ∷ [])) result }
{
    put_var(into, word, var)?;
    put_operand(into, procs, expr)
}

/// Appends a blank and the word, where it stands.
fn put_flag(into: &mut Vec<u8>, word: &[u8], stands: bool) -> Result<(), AllocError>
    ensures { IsPut into.old.items into.new.items (concat (map after_blank (flag_text word.now stands []))) result }
{
    if stands { put_word(into, word) } else { Ok(()) }
}

/// Appends a blank and the mode's word, where there is one.
fn put_mode(into: &mut Vec<u8>, mode: &Option<AliasMode>) -> Result<(), AllocError>
    ensures { IsPut into.old.items into.new.items (concat (map after_blank (mode_text mode.now []))) result }
{
    match mode {
        None => Ok(()),
        Some(AliasMode::Explicit) => put(into, b" explicit_unalias"),
        Some(AliasMode::Demonitor) => put(into, b" demonitor"),
        Some(AliasMode::ReplyDemonitor) => put(into, b" reply_demonitor"),
        Some(AliasMode::Reply) => put(into, b" reply"),
    }
}

fn put_monitor(
    into: &mut Vec<u8>,
    procs: &[Proc],
    var: &Var,
    target: &Expr,
    mode: &Option<AliasMode>,
) -> Result<(), AllocError>
    ensures { IsPut into.old.items into.new.items
        (spaced (codes "monitor") (var.now.0 ∷ expr_text (names_of procs.now) target.now ∷ mode_text mode.now [])) result }
{
    put_var_and(into, procs, b"monitor", var, target)?;
    put_mode(into, mode)
}

fn put_demonitor(
    into: &mut Vec<u8>,
    procs: &[Proc],
    reference: &Expr,
    flush: bool,
) -> Result<(), AllocError>
    ensures { IsPut into.old.items into.new.items
        (spaced (codes "demonitor") (expr_text (names_of procs.now) reference.now ∷ flag_text (codes "flush") flush [])) result }
{
    put_one(into, procs, b"demonitor", reference)?;
    put_flag(into, b"flush", flush)
}

fn put_alias(into: &mut Vec<u8>, var: &Var, reply: bool) -> Result<(), AllocError>
    ensures { IsPut into.old.items into.new.items (spaced (codes "alias") (var.now.0 ∷ flag_text (codes "reply") reply [])) result }
{
    put_var(into, b"alias", var)?;
    put_flag(into, b"reply", reply)
}

fn put_trap(into: &mut Vec<u8>, on: bool) -> Result<(), AllocError>
    ensures { IsPut into.old.items into.new.items (spaced (codes "trap") (switch_text on ∷ [])) result }
{
    if on {
        put(into, b"trap on")
    } else {
        put(into, b"trap off")
    }
}

fn put_goto(into: &mut Vec<u8>, labels: &[Label], label: u32) -> Result<(), AllocError>
    ensures { IsPut into.old.items into.new.items
        (spaced (codes "goto") (name_of_place (map (λ (l : Label). l.name) labels.now) label ∷ [])) result }
{
    put(into, b"goto")?;
    put_word(into, label_name(labels, label))
}

/// Appends ` -> ` and the label's name, where there is a target.
fn put_target(into: &mut Vec<u8>, labels: &[Label], target: Option<u32>) -> Result<(), AllocError>
    ensures { IsPut into.old.items into.new.items
        (concat (map after_blank (target_text (map (λ (l : Label). l.name) labels.now) target))) result }
{
    match target {
        None => Ok(()),
        Some(label) => {
            put(into, b" ->")?;
            put_word(into, label_name(labels, label))
        }
    }
}

/// Appends `receive`, and the variable of the marker where there is one.
fn put_receive(into: &mut Vec<u8>, marker: &Option<Var>) -> Result<(), AllocError>
    ensures { IsPut into.old.items into.new.items (spaced (codes "receive") (marker_text marker.now)) result }
{
    match marker {
        None => put(into, b"receive"),
        Some(var) => put_var(into, b"receive using", var),
    }
}

#[tactic(auto, unfolding(crate::specs::ScriptText::clause_line))]
fn put_clause(
    into: &mut Vec<u8>,
    procs: &[Proc],
    labels: &[Label],
    clause: &Clause,
) -> Result<(), AllocError>
    ensures { IsPut into.old.items into.new.items
        (line_text (clause_line (names_of procs.now) (map (λ (l : Label). l.name) labels.now) clause.now)) result }
{
    put(into, b"on ")?;
    put_pattern(into, procs, &clause.pattern)?;
    put_guard(into, &clause.guard)?;
    put_target(into, labels, clause.target)?;
    put(into, b"\n")
}

fn put_clauses(
    into: &mut Vec<u8>,
    procs: &[Proc],
    labels: &[Label],
    clauses: &[Clause],
) -> Result<(), AllocError>
    ensures { IsPut into.old.items into.new.items
        (flat_map line_text (map (clause_line (names_of procs.now) (map (λ (l : Label). l.name) labels.now)) clauses.now)) result }
{
    for clause in clauses {
        put_clause(into, procs, labels, clause)?;
    }
    Ok(())
}

/// Appends the line of where a receive goes on that finds no message, where it has one.
fn put_after(into: &mut Vec<u8>, labels: &[Label], after: &Option<After>) -> Result<(), AllocError>
    ensures { IsPut into.old.items into.new.items
        (flat_map line_text (after_lines (map (λ (l : Label). l.name) labels.now) after.now)) result }
{
    match after {
        None => Ok(()),
        Some(after) => {
            put(into, b"after")?;
            put_target(into, labels, after.target)?;
            put(into, b"\n")
        }
    }
}

/// Appends the first line of an instruction, without its line feed.
#[tactic(auto, unfolding(crate::specs::ScriptText::instr_lines))]
fn put_first_line(
    into: &mut Vec<u8>,
    procs: &[Proc],
    labels: &[Label],
    instr: &Instr,
) -> Result<(), AllocError>
    ensures { IsPut into.old.items into.new.items
        (first_of (instr_lines (names_of procs.now) (map (λ (l : Label). l.name) labels.now) instr.now)) result }
{
    match instr {
        Instr::Send { to, message } => put_two(into, procs, b"send", to, message),
        Instr::Set { var, value } => put_var_and(into, procs, b"set", var, value),
        Instr::MakeRef { var } => put_var(into, b"make_ref", var),
        Instr::Receive(receiving) => put_receive(into, &receiving.using),
        Instr::Link { peer } => put_one(into, procs, b"link", peer),
        Instr::Unlink { peer } => put_one(into, procs, b"unlink", peer),
        Instr::Monitor { var, target, mode } => put_monitor(into, procs, var, target, mode),
        Instr::Demonitor { reference, flush } => put_demonitor(into, procs, reference, *flush),
        Instr::Alias { var, reply } => put_alias(into, var, *reply),
        Instr::Unalias { reference } => put_one(into, procs, b"unalias", reference),
        Instr::Exit { reason } => put_one(into, procs, b"exit", reason),
        Instr::ExitTo { target, reason } => put_two(into, procs, b"exit_to", target, reason),
        Instr::Trap { on } => put_trap(into, *on),
        Instr::Reserve => put(into, b"reserve"),
        Instr::Bind { var } => put_var(into, b"bind", var),
        Instr::Clear { var } => put_var(into, b"clear", var),
        Instr::Goto { label } => put_goto(into, labels, *label),
        Instr::Stop => put(into, b"stop"),
    }
}

/// Appends the lines of a receive behind its first.
fn put_inside(
    into: &mut Vec<u8>,
    procs: &[Proc],
    labels: &[Label],
    receiving: &Receiving,
) -> Result<(), AllocError>
    ensures { IsPut into.old.items into.new.items
        (flat_map line_text (inside_lines (names_of procs.now) (map (λ (l : Label). l.name) labels.now)
        receiving.now.clauses receiving.now.after)) result }
{
    put_clauses(into, procs, labels, receiving.clauses.as_slice())?;
    put_after(into, labels, &receiving.after)?;
    put(into, b"end\n")
}

/// Appends the lines of an instruction behind its first: a receive alone has some.
#[tactic(auto, unfolding(crate::specs::ScriptText::instr_lines))]
fn put_more_lines(
    into: &mut Vec<u8>,
    procs: &[Proc],
    labels: &[Label],
    instr: &Instr,
) -> Result<(), AllocError>
    ensures { IsPut into.old.items into.new.items
        (flat_map line_text (rest_of (instr_lines (names_of procs.now) (map (λ (l : Label). l.name) labels.now) instr.now))) result }
{
    match instr {
        Instr::Receive(receiving) => put_inside(into, procs, labels, receiving),
        _ => Ok(()),
    }
}

/// Appends the lines of an instruction, where these are the processes, and the labels of its own.
#[tactic(auto, using(crate::proofs::PrintLemmas::kept_front))]
pub fn put_instr(
    into: &mut Vec<u8>,
    procs: &[Proc],
    labels: &[Label],
    instr: &Instr,
) -> Result<(), AllocError>
    ensures { IsPut into.old.items into.new.items
        (flat_map line_text (instr_lines (names_of procs.now) (map (λ (l : Label). l.name) labels.now) instr.now)) result }
{
    put_first_line(into, procs, labels, instr)?;
    put(into, b"\n")?;
    put_more_lines(into, procs, labels, instr)?;
    Ok(())
}
