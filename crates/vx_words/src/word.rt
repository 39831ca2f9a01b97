//! Words and spaces. A tail is what is left behind a word: it is empty or begins with a space.
ghost use Rattle.std.specs.Prelude.{◌≡◌, ◌≤◌, length, option_map};
ghost use Rattle.std.specs.List.{list_any};
ghost use Rattle.std.specs.Str.{bytes_eq};
ghost use Rattle.vx_json.specs.Reading as json;
ghost use Rattle.vx_words.specs.Reading as reading;
ghost use Rattle.vx_words.specs.Reading.{behind_spaces, word_at};

fn word_len(bytes: &[u8]) -> usize
    ensures value { result ≡ reading.word_len bytes.now }
    ensures within { result ≤ length bytes.now }
{
    for (i, b) in bytes.iter().enumerate() {
        if *b == b' ' {
            return i;
        }
    }
    bytes.len()
}

fn spaces_len(bytes: &[u8]) -> usize
    ensures value { result ≡ reading.spaces_len bytes.now }
    ensures within { result ≤ length bytes.now }
{
    for (i, b) in bytes.iter().enumerate() {
        if *b != b' ' {
            return i;
        }
    }
    bytes.len()
}

/// How many bytes stand before the first of this one.
pub fn place_of(letter: u8, bytes: &[u8]) -> usize
    ensures value { result ≡ reading.place_of letter bytes.now }
    ensures within { result ≤ length bytes.now }
{
    for (i, b) in bytes.iter().enumerate() {
        if *b == letter {
            return i;
        }
    }
    bytes.len()
}

/// What stands behind a front.
pub fn after<'a>(front: &[u8], bytes: &'a [u8]) -> Option<&'a [u8]>
    ensures { option_map (λ x. x.now) result ≡ json.after front.now bytes.entry.now }
{
    bytes.strip_prefix(front)
}

/// The word at the front, and the tail behind it.
pub fn split_word(bytes: &[u8]) -> (&[u8], &[u8])
    ensures word { result.0.now ≡ reading.first_word bytes.now }
    ensures tail { result.1.now ≡ reading.behind_word bytes.now }
{
    bytes.split_at(word_len(bytes))
}

/// What stands behind the spaces at the front, if there are any.
pub fn trim(bytes: &[u8]) -> &[u8]
    ensures { result.now ≡ reading.without_spaces bytes.now }
{
    let (_, rest) = bytes.split_at(spaces_len(bytes));
    rest
}

/// What stands behind the spaces at the front, of which there is one at least.
#[tactic(auto, unfolding(crate::specs::Reading::behind_spaces))]
pub fn skip_spaces(tail: &[u8]) -> Option<&[u8]>
    ensures { option_map (λ x. x.now) result ≡ behind_spaces tail.now }
{
    let count = spaces_len(tail);
    if count == 0 {
        return None;
    }
    let (_, bytes) = tail.split_at(count);
    Some(bytes)
}

/// The word behind the spaces, and the tail behind it.
#[tactic(auto, unfolding(crate::specs::Reading::word_at))]
pub fn word(tail: &[u8]) -> Option<(&[u8], &[u8])>
    ensures { option_map (λ x. (x.0.now, x.1.now)) result ≡ word_at tail.now }
{
    match skip_spaces(tail)? {
        [] => None,
        bytes => Some(split_word(bytes)),
    }
}

/// Whether the word is one of these.
pub fn is_among(word: &[u8], words: &[&str]) -> bool
    ensures { result ≡ list_any (λ other. bytes_eq word.now other.now) words.now }
{
    words.iter().any(|other| word == other.as_bytes())
}
