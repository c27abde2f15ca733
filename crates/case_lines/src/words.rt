//! The lines of a text and the words of a line.
ghost use Rattle.std.specs.Prelude.{◌≡◌, ◌≤◌, ◌<◌, ◌+◌, ◌↔◌, IfSome, IsNone, length, take, drop};
ghost use Rattle.fab_config.specs.Lines.{words};
ghost use Rattle.case_lines.specs.Words as spec;

use fab_config::next_word;

/// The first line of a text, without its line feed, and the text behind it.
pub fn next_line(text: &[u8]) -> Option<(&[u8], &[u8])>
    ensures none { IsNone result ↔ (length text.now ≡ 0) }
    ensures line { IfSome result (λ p. p.0.now ≡ take (spec.line_length text.now) text.now) }
    ensures rest { IfSome result (λ p. p.1.now ≡ drop (spec.line_length text.now + 1) text.now) }
    ensures less { IfSome result (λ p. length p.1.now < length text.now) }
{
    if text.is_empty() {
        return None;
    }
    let end = line_length(text);
    if end < text.len() {
        Some((&text[..end], &text[end + 1..]))
    } else {
        Some((text, &[]))
    }
}

// The place of the first line feed, or the length.
fn line_length(text: &[u8]) -> usize
    ensures bound { result ≤ length text.now }
    ensures place { result ≡ spec.line_length text.now }
{
    for (i, byte) in text.iter().enumerate() {
        if *byte == b'\n' {
            return i;
        }
    }
    text.len()
}

/// The word at an index of a line, and no bytes where it has so few.
pub fn word_at(line: &[u8], index: usize) -> &[u8]
    ensures { result.now ≡ spec.word_at (words line.now) index }
{
    match next_word(line) {
        None => &[],
        Some((word, rest)) => {
            if index == 0 {
                word
            } else {
                word_at(rest, index - 1)
            }
        }
    }
}

/// A line that says no case: an empty one, or one that begins with #.
pub fn is_remark(line: &[u8]) -> bool
    ensures { result ≡ spec.is_remark line.now }
{
    line.is_empty() || line[0] == b'#'
}
