ghost use Rattle.std.specs.Prelude.{◌≡◌};
ghost use Rattle.std.specs.List.{list_all};
ghost use Rattle.std.specs.String.{string_bytes};
ghost use Rattle.command_outcome.specs.FileWords.{is_another, is_word, texts};

// Whether the word may name a file.
fn is_word(word: &str) -> bool
    ensures { result ≡ is_word word.now }
{
    match word.as_bytes() {
        [] => false,
        [first, ..] => *first != b'-',
    }
}

fn all_words(words: &[String]) -> bool
    ensures { result ≡ list_all (λ word. is_word (string_bytes word)) words.now }
{
    words.iter().all(|word| is_word(word.as_str()))
}

/// Whether each of the words behind a command may name a file: it isn't empty and doesn't begin with
/// `-`.
pub fn are_words(words: &[String]) -> bool
    ensures { result ≡ list_all is_word (texts words.now) }
{
    all_words(words)
}

/// Whether the last name is none of the others.
pub fn is_another(a: &str, b: &str, c: &str, d: &str) -> bool
    ensures { result ≡ is_another a.now b.now c.now d.now }
{
    d != a && d != b && d != c
}
