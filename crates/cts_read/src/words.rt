//! The words of a line, and which lines are skipped.

ghost use Rattle.std.specs.Prelude.{◌≡◌, ℕ, ◌<◌, ◌≤◌, [], ◌∷◌, true, false, MatchOption, IfSome, length, slice_index};
ghost use Rattle.cts_read.specs.Lines.{is_blank as blank, is_printable as printable, is_printable_byte as printable_byte, is_skipped as skipped, words_of};

/// A byte that separates words: a space or a tab.
pub fn is_blank(byte: u8) -> bool
    ensures { result ≡ blank byte }
{
    byte == b' ' || byte == b'\t'
}

/// Whether a line is skipped: it has no byte but spaces and tabs, or begins with `#` after them.
pub fn is_skipped(line: &[u8]) -> bool
    ensures { result ≡ skipped line.now }
{
    for byte in line {
        if !is_blank(*byte) {
            return *byte == b'#';
        }
    }
    true
}

/// A byte that a line may hold: from 0x20 to 0x7E, or a tab.
fn is_printable_byte(byte: u8) -> bool
    ensures { result ≡ printable_byte byte }
{
    byte == b'\t' || (b' '..=b'~').contains(&byte)
}

/// Whether a line holds the bytes 0x20 to 0x7E and tabs alone.
pub fn is_printable(line: &[u8]) -> bool
    ensures { result ≡ printable line.now }
{
    // No early exit, so that many bytes are looked at in one step.
    let mut printable = true;
    for byte in line {
        printable &= is_printable_byte(*byte);
    }
    printable
}

/// The first word, and what comes after it.
pub fn word_at(line: &[u8]) -> Option<(&[u8], &[u8])>
    ensures word { MatchOption result (words_of line.now ≡ [])
        (λ x. words_of line.now ≡ x.0.now ∷ words_of x.1.now) }
    ensures shorter { IfSome result (λ x. length x.1.now < length line.now) }
{
    let text = without_blanks(line);
    let end = word_length(text);
    if end == 0 {
        return None;
    }
    Some(text.split_at(end))
}

/// The line from its first byte on that is no blank.
#[tactic(auto, using(crate::proofs::WordLists::words_of_blank))]
fn without_blanks(line: &[u8]) -> &[u8]
    ensures words { words_of result.now ≡ words_of line.now }
    ensures start { 0 < length result.now → blank (slice_index result.now 0) ≡ false }
    ensures shorter { length result.now ≤ length line.now }
{
    for (at, byte) in line.iter().enumerate() {
        if !is_blank(*byte) {
            return &line[at..];
        }
    }
    &line[line.len()..]
}

/// How many bytes come before the first blank.
fn word_length(text: &[u8]) -> usize
    ensures within { result ≤ length text.now }
    ensures word { (k : ℕ) → k < result → blank (slice_index text.now k) ≡ false }
    ensures stop { result < length text.now → blank (slice_index text.now result) ≡ true }
{
    for (at, byte) in text.iter().enumerate() {
        if is_blank(*byte) {
            return at;
        }
    }
    text.len()
}

/// How many words a line has: one begins at each byte that is no blank and stands first or after one.
pub fn count_words(line: &[u8]) -> usize
    ensures { result ≡ length (words_of line.now) }
{
    let mut count = 0;
    let mut after_blank = true;
    for byte in line {
        let blank = is_blank(*byte);
        if after_blank && !blank {
            count += 1;
        }
        after_blank = blank;
    }
    count
}
