ghost use Rattle.std.specs.Prelude.{ℕ, List};
ghost use Rattle.sig_call.specs.Expansion.{LinesStand};

/// The lines of an expanded text are the lines that stand for the given ones, so that what
/// [`expand`](crate::expand) tells of a line of that text is told of the given line from which it
/// comes.
pub fn the_lines_of_an_expanded_text()
    ensures { (bytes : List ℕ) → LinesStand bytes }
{}
