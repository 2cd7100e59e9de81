//! Texts cut at the bytes that end lines.
ghost use Rattle.std.specs.Prelude.{◌≡◌, ◌++◌, ◌∷◌, ◌<◌, length, IfNone, IfSome, IsUtf8};
ghost use Rattle.np_code_points.specs.Lines.{HasNo};
ghost use Rattle.np_lines.specs.Lines.{byte_of};

use crate::lines::LineEnd;
use np_code_points::lines::cut;
use np_code_points::text::text_of;
use std::str::from_utf8_unchecked;

/// The longest front of some bytes that is UTF-8, and what is behind it.
pub(crate) fn cut_text(bytes: &[u8]) -> (&str, &[u8])
    ensures { bytes.now ≡ result.0.now ++ result.1.now }
{
    match text_of(bytes) {
        Ok(text) => (text, &[]),
        Err(fault) => {
            let (text, behind) = bytes.split_at(fault.at);
            (unsafe { from_utf8_unchecked(text) }, behind)
        }
    }
}

/// The first line of a text, without what ends it, and what is behind that; none where no line ends in the text.
pub fn cut_line(text: &str, end: LineEnd) -> Option<(&str, &str)>
    ensures cut { IfSome result (λ parts. text.now ≡ parts.0.now ++ byte_of end ∷ parts.1.now) }
    ensures line { IfSome result (λ parts. HasNo (byte_of end) parts.0.now) }
    ensures utf8 { IfSome result (λ parts. IsUtf8 parts.0.now × IsUtf8 parts.1.now) }
    ensures none { IfNone result (HasNo (byte_of end) text.now) }
    ensures shorter { IfSome result (λ parts. length parts.1.now < length text.now) }
{
    let (line, behind) = cut(text.as_bytes(), end.byte());
    let Some(_behind) = behind else {
        return None;
    };
    let at = line.len();
    Some((&text[..at], &text[at + 1..]))
}
