// The lines of a text, and the words of a line.
ghost use Rattle.std.specs.Prelude.{◌≡◌, ◌≢◌, not, ◌<◌, ◌≤◌, ◌==◌, ℕ, List, [], ◌∷◌, length, bytes_eq, MatchOption, IfSome};
ghost use Rattle.std.specs.Str.{IsUtf8};
ghost use Rattle.std.specs.List.{position_or_len};
ghost use Rattle.af_text.specs.Lines.{lines, words, is_passed_over};

/// How many bytes stand before the first that is this one, or all where there is none.
fn count_before(bytes: &[u8], stop: u8) -> usize
    ensures value { result ≡ position_or_len (λ b. b == stop) bytes.now }
    ensures bound { result ≤ length bytes.now }
{
    bytes.iter().position(|b| *b == stop).unwrap_or(bytes.len())
}

/// How many bytes stand before the first that is another one, or all where there is none.
fn count_leading(bytes: &[u8], skipped: u8) -> usize
    ensures value { result ≡ position_or_len (λ b. not (b == skipped)) bytes.now }
    ensures bound { result ≤ length bytes.now }
{
    bytes
        .iter()
        .position(|b| *b != skipped)
        .unwrap_or(bytes.len())
}

/// The first line of a text that is not empty, without its LF, and the text after it.
pub fn next_line(text: &[u8]) -> (&[u8], &[u8])
    requires { 0 < length text.now }
    ensures lines { lines text.now ≡ result.0.now ∷ lines result.1.now }
    ensures shorter { length result.1.now < length text.now }
{
    let end = count_before(text, b'\n');
    if end < text.len() {
        (&text[..end], &text[end + 1..])
    } else {
        (text, &[])
    }
}

/// The first word of a line, and the line after it. If the line is text, so are both.
pub fn next_word(line: &[u8]) -> Option<(&[u8], &[u8])>
    ensures split { MatchOption result (words line.now ≡ []) (λ found. words line.now ≡ found.0.now ∷ words found.1.now) }
    ensures text { IsUtf8 line.now → IfSome result (λ found. IsUtf8 found.0.now × IsUtf8 found.1.now) }
{
    let start = count_leading(line, b' ');
    let from = &line[start..];
    if from.is_empty() {
        return None;
    }
    let (word, rest) = from.split_at(count_before(from, b' '));
    Some((word, rest))
}

/// The word of a line that has just this one. If the line is text, so is the word.
pub fn one_word(line: &[u8]) -> Option<&[u8]>
    ensures split { MatchOption result ((w : List ℕ) → words line.now ≢ w ∷ []) (λ w. words line.now ≡ w.now ∷ []) }
    ensures text { IsUtf8 line.now → IfSome result (λ w. IsUtf8 w.now) }
{
    let (word, rest) = next_word(line)?;
    if next_word(rest).is_some() {
        None
    } else {
        Some(word)
    }
}

/// The words of a line that has just two. If the line is text, so are both.
pub fn two_words(line: &[u8]) -> Option<(&[u8], &[u8])>
    ensures split { MatchOption result ((v w : List ℕ) → words line.now ≢ v ∷ w ∷ [])
        (λ p. words line.now ≡ p.0.now ∷ p.1.now ∷ []) }
    ensures text { IsUtf8 line.now → IfSome result (λ p. IsUtf8 p.0.now × IsUtf8 p.1.now) }
{
    let (first, rest) = next_word(line)?;
    let second = one_word(rest)?;
    Some((first, second))
}

/// Whether a line is skipped: it is a comment, or has no words.
pub fn passes_over(line: &[u8]) -> bool
    ensures { result ≡ is_passed_over line.now }
{
    match line {
        [b'#', ..] => true,
        _ => next_word(line).is_none(),
    }
}

/// Whether a word is this one.
pub fn is_word(word: &[u8], wanted: &[u8]) -> bool
    ensures { result ≡ bytes_eq word.now wanted.now }
{
    word == wanted
}
