// Words of a lent buffer: one read, several written.
ghost use Rattle.std.specs.Prelude.{◌≡◌, ◌+◌, ◌≤◌, length};
ghost use Rattle.words.specs.Runs.{splice};
ghost use Rattle.c_words.specs.Words.{word, is_yes_no};

// Word n, 0 past the end.
pub fn word_at(words: &[u32], n: usize) -> u32
    ensures { result ≡ word words.now n }
{
    words.get(n).copied().unwrap_or(0)
}

// Word n is 0 or 1, as a word that says yes or no is.
pub fn is_yes_no(words: &[u32], n: usize) -> bool
    ensures { result ≡ is_yes_no (word words.now n) }
{
    word_at(words, n) < 2
}

// Writes words from a place on.
pub fn put(words: &mut [u32], at: usize, from: &[u32])
    requires { at + length from.now ≤ length words.old }
    ensures { words.new ≡ splice words.old at from.now }
{
    words[at..at + from.len()].copy_from_slice(from);
}
