//! The lines of a text and the words of a line.
ghost use Rattle.std.specs.Prelude.{◌≡◌, ◌≢◌, ◌≤◌, ◌<◌, ◌+◌, ℕ, [], ◌∷◌, false, true, MatchOption};
ghost use Rattle.std.specs.Prelude.{length, slice_index, take, drop};
ghost use Rattle.fab_config.specs.Lines as spec;
ghost use Rattle.fab_config.specs.Values.{IsNotOne};

/// The first line of a text that isn't empty, and the text behind its line feed.
pub(crate) fn cut_line(text: &[u8]) -> (&[u8], &[u8])
    requires { 0 < length text.now }
    ensures lines { spec.lines_of text.now ≡ result.0.now ∷ spec.lines_of result.1.now }
    ensures less { length result.1.now < length text.now }
    ensures part { length result.0.now ≤ length text.now }
{
    let end = line_end(text);
    if end < text.len() {
        (without_return(&text[..end]), &text[end + 1..])
    } else {
        (without_return(text), &[])
    }
}

// The place of the first line feed, or the length.
fn line_end(text: &[u8]) -> usize
    ensures bound { result ≤ length text.now }
    ensures before { (k : ℕ) → k < result → slice_index text.now k ≢ 10 }
    ensures found { result < length text.now → slice_index text.now result ≡ 10 }
{
    for (i, byte) in text.iter().enumerate() {
        if *byte == b'\n' {
            return i;
        }
    }
    text.len()
}

// A line without the carriage return at its end.
fn without_return(line: &[u8]) -> &[u8]
    ensures line { result.now ≡ spec.without_return line.now }
    ensures part { length result.now ≤ length line.now }
{
    if ends_in_return(line) {
        &line[..line.len() - 1]
    } else {
        line
    }
}

fn ends_in_return(line: &[u8]) -> bool
    ensures { result ≡ spec.ends_in_return line.now }
{
    !line.is_empty() && line[line.len() - 1] == b'\r'
}

/// The first word of a line, and what is behind it: words stand between runs of spaces and tabs.
pub fn next_word(line: &[u8]) -> Option<(&[u8], &[u8])>
    ensures words { MatchOption result (spec.words line.now ≡ []) (λ p. spec.words line.now
        ≡ p.0.now ∷ spec.words p.1.now) }
    ensures less { MatchOption result (0 ≤ 0) (λ p. length p.1.now < length line.now) }
{
    let start = word_start(line);
    if start == line.len() {
        return None;
    }
    let rest = &line[start..];
    let end = word_end(rest);
    Some((&rest[..end], &rest[end..]))
}

// The place of the first byte that is no blank, or the length.
fn word_start(line: &[u8]) -> usize
    ensures bound { result ≤ length line.now }
    ensures words { spec.words line.now ≡ spec.words (drop result line.now) }
    ensures found { result < length line.now → spec.is_blank (slice_index line.now result) ≡ false }
{
    for (i, byte) in line.iter().enumerate() {
        if !is_blank(*byte) {
            return i;
        }
    }
    line.len()
}

// The length of the word at the beginning.
fn word_end(line: &[u8]) -> usize
    ensures bound { result ≤ length line.now }
    ensures word { spec.words line.now
        ≡ spec.words_from (take result line.now) (drop result line.now) }
    ensures found { result < length line.now → spec.is_blank (slice_index line.now result) ≡ true }
{
    for (i, byte) in line.iter().enumerate() {
        if is_blank(*byte) {
            return i;
        }
    }
    line.len()
}

fn is_blank(byte: u8) -> bool
    ensures { result ≡ spec.is_blank byte }
{
    byte == b' ' || byte == b'\t'
}

/// A line's only word, where it has one.
pub(crate) fn only_word(line: &[u8]) -> Option<&[u8]>
    ensures { MatchOption result (IsNotOne (spec.words line.now)) (λ w. spec.words line.now
        ≡ w.now ∷ []) }
{
    let (word, rest) = next_word(line)?;
    match next_word(rest) {
        None => Some(word),
        Some(_) => None,
    }
}

/// An empty line, or a remark.
pub(crate) fn is_skipped(line: &[u8]) -> bool
    ensures { result ≡ spec.is_skipped line.now }
{
    line.is_empty() || line[0] == b'#'
}

/// Printed signs, spaces and tabs alone.
pub(crate) fn is_ascii(line: &[u8]) -> bool
    ensures { result ≡ spec.is_ascii line.now }
{
    line.iter()
        .all(|byte| *byte >= 0x20 && *byte <= 0x7e || *byte == b'\t')
}
