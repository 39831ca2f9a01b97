//! Numbers, as words spell them.
ghost use Rattle.std.specs.Prelude.{◌≡◌};
ghost use Rattle.std.specs.List.{list_all};
ghost use Rattle.std.specs.Char.{is_ascii_digit};
ghost use Rattle.vx_words.specs.Grammar as grammar;
ghost use Rattle.vx_words.specs.Reading.{number_in, at_most_in, behind_minus, signed_in};

fn are_digits(text: &[u8]) -> bool
    ensures { result ≡ list_all is_ascii_digit text.now }
{
    text.iter().all(|b| b.is_ascii_digit())
}

/// Whether it is 1 to 20 digits.
fn is_digits(text: &[u8]) -> bool
    ensures { result ≡ grammar.is_digits text.now }
{
    !text.is_empty() && text.len() <= 20 && are_digits(text)
}

/// The number of 64 bits that 1 to 20 digits spell.
#[tactic(auto, unfolding(crate::specs::Reading::number_in))]
pub fn number(text: &[u8]) -> Option<u64>
    ensures { result ≡ number_in 64 text.now }
{
    if !is_digits(text) {
        return None;
    }
    match std::str::from_utf8(text) {
        Ok(digits) => digits.parse::<u64>().ok(),
        Err(_) => None,
    }
}

/// The same of 32 bits.
#[tactic(auto, unfolding(crate::specs::Reading::number_in))]
pub fn small_number(text: &[u8]) -> Option<u32>
    ensures { result ≡ number_in 32 text.now }
{
    if !is_digits(text) {
        return None;
    }
    match std::str::from_utf8(text) {
        Ok(digits) => digits.parse::<u32>().ok(),
        Err(_) => None,
    }
}

/// The same of 8 bits.
#[tactic(auto, unfolding(crate::specs::Reading::number_in))]
pub fn byte_number(text: &[u8]) -> Option<u8>
    ensures { result ≡ number_in 8 text.now }
{
    if !is_digits(text) {
        return None;
    }
    match std::str::from_utf8(text) {
        Ok(digits) => digits.parse::<u8>().ok(),
        Err(_) => None,
    }
}

/// The number of 32 bits that 1 to 20 digits spell, where it is at most this.
#[tactic(auto, unfolding(crate::specs::Reading::at_most_in))]
pub fn at_most(limit: u32, text: &[u8]) -> Option<u32>
    ensures { result ≡ at_most_in limit text.now }
{
    let number = small_number(text)?;
    if number <= limit { Some(number) } else { None }
}

/// The digits of a number, behind its sign.
fn unsigned(text: &[u8]) -> &[u8]
    ensures { result.now ≡ behind_minus text.now }
{
    match text {
        [b'-', digits @ ..] => digits,
        _ => text,
    }
}

/// The number of 32 bits, with a sign, that 1 to 20 digits spell, with a minus sign before them or without.
#[tactic(auto, unfolding(crate::specs::Reading::signed_in))]
pub fn code(text: &[u8]) -> Option<i32>
    ensures { result ≡ signed_in 31 text.now }
{
    if !is_digits(unsigned(text)) {
        return None;
    }
    match std::str::from_utf8(text) {
        Ok(numeral) => numeral.parse::<i32>().ok(),
        Err(_) => None,
    }
}

/// The same of 64 bits.
#[tactic(auto, unfolding(crate::specs::Reading::signed_in))]
pub fn value(text: &[u8]) -> Option<i64>
    ensures { result ≡ signed_in 63 text.now }
{
    if !is_digits(unsigned(text)) {
        return None;
    }
    match std::str::from_utf8(text) {
        Ok(numeral) => numeral.parse::<i64>().ok(),
        Err(_) => None,
    }
}
