//! What a match is, in the manual's words, what a hit of a scan tells, and which messages a scan may skip. Each function is a
//! theorem on the definitions: its contract is what was proved, and its body is empty. (Erlang Reference Manual, Pattern
//! Matching; Expressions, Receive and Guard Sequences.)

ghost use Rattle.std.specs.Prelude.{
  ◌≡◌,
  if◌then◌else◌,
  ℤ,
  List,
  [],
  ◌∷◌,
  ◌++◌,
  All,
  length,
  take,
  true,
  false,
  Some,
  None,
  slice_get,
  codes,
};
ghost use Rattle.std.specs.Option.{option_map};
ghost use Rattle.std.specs.FinMap as map;
ghost use Rattle.sig_terms.specs.Nodes.{holds};
ghost use Rattle.sig_terms.specs.TermTest.{same_term};
ghost use Rattle.sig_terms.specs.declared.reference.Ref.{Ref};
ghost use Rattle.sig_terms.specs.declared.term.Term.{Term};
ghost use Rattle.sig_terms.specs.declared.term.Term.TheVariants as term;
ghost use Rattle.sig_patterns.specs.declared.building.TheConstants.{MOST_DEPTH, MOST_NODES};
ghost use Rattle.sig_patterns.specs.declared.mark.TheConstants.{MOST_MARKS};
ghost use Rattle.sig_patterns.specs.declared.clause.Clause.{Clause};
ghost use Rattle.sig_patterns.specs.declared.guard.Op.{Op};
ghost use Rattle.sig_patterns.specs.declared.var.Var.{Var};
ghost use Rattle.sig_patterns.specs.declared.pattern.Pattern.{Pattern};
ghost use Rattle.sig_patterns.specs.declared.pattern.Pattern.TheVariants as pattern;
ghost use Rattle.sig_patterns.specs.Environment.{Environment, value_of_var};
ghost use Rattle.sig_patterns.specs.Matching.{match_of};
ghost use Rattle.sig_patterns.specs.Guarding.{guard_holds, compares_ints, compares};
ghost use Rattle.sig_patterns.specs.Pinning.{pins, AskFor};
ghost use Rattle.sig_patterns.specs.Scanning.{Hit, NoneMatches, behind_messages, found_behind, hit, scan, takes};

/// `[P1 | [P2, ..]]` matches as `[P1, P2, ..]` does.
pub fn a_list_is_a_head_and_a_list()
    ensures { (env : Environment) (p : Pattern) (ps : List Pattern) (t : Term) →
        match_of (pattern.Cons p (pattern.List ps)) env t ≡ match_of (pattern.List (p ∷ ps)) env t }
{}

/// `{X, X}` matches a pair of equal terms, whatever `X` was before, and binds it.
pub fn a_repeated_variable_compares()
    ensures { (env : Environment) (x : Var) (t u : Term) →
        match_of (pattern.Tuple (pattern.Bind x ∷ pattern.Bind x ∷ [])) env (term.Tuple (t ∷ u ∷ []))
        ≡ (if same_term t u then Some (map.insert env x.0 t) else None) }
{}

/// `{X, ^X}` matches a pair whose second element is what `X` was before, and binds `X` to the first.
pub fn a_pin_compares_with_the_value_before()
    ensures { (env : Environment) (x : Var) (t u : Term) →
        match_of (pattern.Tuple (pattern.Bind x ∷ pattern.Pin x ∷ [])) env (term.Tuple (t ∷ u ∷ []))
        ≡ (if same_term (value_of_var env x.0) u then Some (map.insert env x.0 t) else None) }
{}

/// A comparison is true exactly where both terms are integers that compare so. A variable without an entry is the atom `undefined`.
pub fn a_comparison_is_of_integers()
    ensures integers { (op : Op) (m n : ℤ) → compares op (term.Int m) (term.Int n) ≡ compares_ints op m n }
    ensures others { (op : Op) (t u : Term) → compares op t u ≡ true → (m : ℤ) × (n : ℤ) × ((t ≡ term.Int m) × (u ≡ term.Int n)) }
    ensures undefined { (env : Environment) (x : Var) → map.get env x.0 ≡ None → value_of_var env x.0 ≡ term.Atom (codes "undefined") }
{}

/// A clause takes a message exactly where its pattern matches it and its guard is true in the environment after the match, which
/// is then what the clause makes of the environment. A clause without a guard takes all that its pattern matches.
pub fn a_clause_takes_what_it_matches()
    ensures matched { (c : Clause) (env : Environment) (t : Term) (after : Environment) →
        takes c env t ≡ Some after → match_of c.pattern env t ≡ Some after }
    ensures guarded { (c : Clause) (env : Environment) (t : Term) (after : Environment) →
        takes c env t ≡ Some after → guard_holds (value_of_var after) c.guard ≡ true }
    ensures taken { (c : Clause) (env : Environment) (t : Term) (after : Environment) →
        match_of c.pattern env t ≡ Some after → guard_holds (value_of_var after) c.guard ≡ true → takes c env t ≡ Some after }
    ensures plain { (c : Clause) (env : Environment) (t : Term) → c.guard ≡ None → takes c env t ≡ match_of c.pattern env t }
{}

/// A hit tells the oldest message that some clause takes, and the first clause that takes it: the message stands at the
/// hit's place, and its clause takes it with the environment that the hit tells, and goes on where the hit says. No clause
/// takes an older message, and no earlier clause this one. Where there is no hit, no clause takes any message.
pub fn a_hit_tells_its_match()
    ensures message { (clauses : List Clause) (env : Environment) (messages : List Term) (h : Hit) →
        hit clauses env messages ≡ Some h → slice_get messages h.at ≡ Some h.message }
    ensures clause { (clauses : List Clause) (env : Environment) (messages : List Term) (h : Hit) →
        hit clauses env messages ≡ Some h →
        (c : Clause) × ((slice_get clauses h.clause ≡ Some c) × (h.target ≡ c.target) × (takes c env h.message ≡ Some h.env)) }
    ensures oldest { (clauses : List Clause) (env : Environment) (messages : List Term) (h : Hit) →
        hit clauses env messages ≡ Some h → All (NoneMatches clauses env) (take h.at messages) }
    ensures first { (clauses : List Clause) (env : Environment) (messages : List Term) (h : Hit) →
        hit clauses env messages ≡ Some h → NoneMatches (take h.clause clauses) env h.message }
    ensures none { (clauses : List Clause) (env : Environment) (messages : List Term) →
        hit clauses env messages ≡ None → All (NoneMatches clauses env) messages }
{}

/// A pattern that pins a variable whose value is a reference matches only terms that hold the reference.
pub fn a_pinned_reference_is_held()
    ensures { (p : Pattern) (env : Environment) (t : Term) (e : Environment) (x : Var) (r : Ref) →
        match_of p env t ≡ Some e → pins p x ≡ true → value_of_var env x.0 ≡ term.Ref r → holds r t ≡ true }
{}

/// Where every clause asks for a reference and none of the older messages holds it, a scan finds what a scan of the rest
/// finds, as many places further.
pub fn older_messages_are_skipped()
    ensures found { (clauses : List Clause) (env : Environment) (r : Ref) (older rest : List Term) →
        AskFor env r clauses → All (λ t. holds r t ≡ false) older →
        hit clauses env (older ++ rest) ≡ option_map (behind_messages (length older)) (hit clauses env rest) }
    ensures places { (clauses : List Clause) (env : Environment) (r : Ref) (older rest : List Term) →
        AskFor env r clauses → All (λ t. holds r t ≡ false) older →
        scan clauses env (older ++ rest) ≡ option_map (found_behind (length older)) (scan clauses env rest) }
{}

/// The limits in numbers: [`MOST_NODES`](crate::MOST_NODES) is 1,024, [`MOST_DEPTH`](crate::MOST_DEPTH) is 64, and
/// [`MOST_MARKS`](crate::MOST_MARKS) is 8.
pub fn the_limits_of_patterns()
    ensures nodes { MOST_NODES ≡ 1024 }
    ensures depth { MOST_DEPTH ≡ 64 }
    ensures marks { MOST_MARKS ≡ 8 }
{}
