//! Tables of words.

/// What a table has beside this word; None where the word isn't in it.
pub fn entry_of<T: Copy>(table: &[(&str, T)], word: &[u8]) -> Option<T> {
    for (known, entry) in table {
        if known.as_bytes() == word {
            return Some(*entry);
        }
    }
    None
}
