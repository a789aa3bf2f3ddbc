//! What `expand` writes, read as a script.

ghost use Rattle.std.specs.Prelude.{◌≡◌, ◌≤◌, ℕ, List, length, Ok};
ghost use Rattle.sig_program.specs.Scripts.{Program};
ghost use Rattle.sig_reader.specs.Grammar.{script_of};
ghost use Rattle.sig_reader.specs.declared.reader.TheConstants.{MOST_BYTES};
ghost use Rattle.sig_canon.specs.ScriptText.{script_text};
ghost use Rattle.sig_call.specs.Expansion.{expansion};

/// The text that `expand` writes, read as a script, gives the script that the text of calls spells, if it
/// has at most [`MOST_BYTES`](sig_script::MOST_BYTES) bytes.
pub fn an_expanded_script_is_read_back()
    ensures { (calls : List ℕ) (script : Program) → expansion calls ≡ Ok script → length (script_text script) ≤ MOST_BYTES →
        script_of (script_text script) ≡ Ok script }
{}
