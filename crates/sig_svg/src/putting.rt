//! The pieces of a chart's text.

ghost use Rattle.std.specs.Prelude.{◌≡◌, ◌++◌, ◌<◌, OnOk, decimal};
ghost use Rattle.sig_svg.specs.Markups.{markup_text};
ghost use Rattle.sig_svg.specs.Escape.{escape};
ghost use Rattle.sig_svg.specs.Svg.{text_of, short};

use crate::escaping::put_escaped;
use crate::markup::Markup;
use itoa::Buffer;
use std::alloc::AllocError;

/// Appends a text that doesn't depend on what is drawn.
pub(crate) fn put(into: &mut Vec<u8>, markup: Markup) -> Result<(), AllocError>
    ensures { OnOk result (into.new.items ≡ into.old.items ++ markup_text markup) }
{
    into.extend_from_slice(markup.text())
}

fn put_number(into: &mut Vec<u8>, n: u64) -> Result<(), AllocError>
    ensures { OnOk result (into.new.items ≡ into.old.items ++ decimal n) }
{
    let mut buffer = Buffer::new();
    into.extend_from_slice(buffer.format(n).as_bytes())
}

/// The same, and the number.
pub(crate) fn put_at(into: &mut Vec<u8>, markup: Markup, number: u64) -> Result<(), AllocError>
    ensures { OnOk result (into.new.items ≡ into.old.items ++ (markup_text markup ++ decimal number)) }
{
    put(into, markup)?;
    put_number(into, number)
}

/// Appends bytes of the script or the record: where they are more than so many, the first of them, and
/// dots.
pub(crate) fn put_short(into: &mut Vec<u8>, most: usize, bytes: &[u8]) -> Result<(), AllocError>
    requires { 3 < most }
    ensures { OnOk result (into.new.items ≡ into.old.items ++ text_of (short most bytes.now)) }
{
    if bytes.len() <= most {
        put_escaped(into, bytes)
    } else {
        put_escaped(into, &bytes[..most - 3])?;
        put(into, Markup::Dots)
    }
}
