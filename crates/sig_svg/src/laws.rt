//! What the text of a chart keeps. Nothing here runs: the contracts are what was proved, and the bodies
//! are empty.

ghost use Rattle.std.specs.Prelude.{◌≡◌, ℕ, List};
ghost use Rattle.sig_svg.specs.declared.shape.Chart.{Chart};
ghost use Rattle.sig_svg.specs.Escape.{escape, IsEscaped};
ghost use Rattle.sig_svg.specs.Svg.{chart_pieces, chart_text, text_of};

/// Bytes that are escaped are plain bytes and whole entities, whatever the bytes are: none of `<`, `>`,
/// `"` and `'` stands there, and `&` only as the beginning of an entity.
pub fn escaped_bytes_are_no_markup()
    ensures { (bytes : List ℕ) → IsEscaped (escape bytes) }
{}

/// The text of a chart is that of its pieces, one behind the other: those of the head; of the line through
/// each event's row; of each process's lane; of the arrow of each signal that was handled, and of each that
/// is queued; of each event's sign and text; and of the foot. Each piece is one of the texts of [`Markup`],
/// a number, or bytes that are escaped. So no byte of a script or a record stands there unescaped.
///
/// [`Markup`]: crate::Markup
pub fn a_chart_is_pieces()
    ensures { (chart : Chart) → chart_text chart ≡ text_of (chart_pieces chart) }
{}
