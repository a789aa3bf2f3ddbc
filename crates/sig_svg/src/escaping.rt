//! Bytes of a script or a record, as they stand in an SVG.

ghost use Rattle.std.specs.Prelude.{◌≡◌, ◌++◌, ◌∷◌, ℕ, List, OnOk};
ghost use Rattle.sig_svg.specs.Escape.{escape_byte, escape, IsEscaped};

use std::alloc::AllocError;

/// Appends the byte, or an entity in place of one that is a sign of XML or can't stand there.
fn put_escaped_byte(into: &mut Vec<u8>, byte: u8) -> Result<(), AllocError>
    ensures { OnOk result (into.new.items ≡ into.old.items ++ escape_byte byte) }
{
    match byte {
        b'&' => into.extend_from_slice(b"&amp;"),
        b'<' => into.extend_from_slice(b"&lt;"),
        b'>' => into.extend_from_slice(b"&gt;"),
        b'"' => into.extend_from_slice(b"&quot;"),
        b'\'' => into.extend_from_slice(b"&#39;"),
        32..=126 => {
            into.push(byte)?;
            Ok(())
        }
        _ => into.extend_from_slice(b"&#65533;"),
    }
}

/// Appends the bytes, escaped.
pub(crate) fn put_escaped(into: &mut Vec<u8>, bytes: &[u8]) -> Result<(), AllocError>
    ensures { OnOk result (into.new.items ≡ into.old.items ++ escape bytes.now) }
{
    for byte in bytes {
        put_escaped_byte(into, *byte)?;
    }
    Ok(())
}
