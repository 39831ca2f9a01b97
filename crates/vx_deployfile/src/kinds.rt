//! The kinds of verticles, and what each wants of its numbers.
ghost use Rattle.std.specs.Prelude.{◌≡◌};
ghost use Rattle.std.specs.List.{list_any};
ghost use Rattle.std.specs.Str.{bytes_eq};
ghost use Rattle.vx_deployfile.specs.Kinds as kinds;

/// The longest delay or timeout, in ms.
const MAX_DELAY: i64 = 1_000_000_000_000;

/// Whether there is a kind of this name.
pub(crate) fn is_kind(name: &[u8]) -> bool
    ensures { result ≡ kinds.is_kind name.now }
{
    is_among(
        name,
        &[
            "echo", "counter", "relay", "ticker", "caller", "parent", "blocker", "silent", "late",
            "failer",
        ],
    )
}

/// Whether the name is one of these.
fn is_among(name: &[u8], names: &[&str]) -> bool
    ensures { result ≡ list_any (λ other. bytes_eq name.now other.now) names.now }
{
    names.iter().any(|other| name == other.as_bytes())
}

/// Whether the number in this place is within the limits, where it is there.
fn is_within(config: &[i64], place: usize, least: i64, most: i64) -> bool
    ensures { result ≡ kinds.is_within place least most config.now }
{
    match config.get(place) {
        Some(n) => least <= *n && *n <= most,
        None => true,
    }
}

/// Whether a kind takes these numbers.
#[tactic(auto, unfolding(crate::specs::Kinds::suits))]
pub(crate) fn suits(kind: &[u8], config: &[i64]) -> bool
    ensures { result ≡ kinds.suits kind.now config.now }
{
    if kind == b"parent".as_slice() {
        is_within(config, 0, 1, 64)
    } else if kind == b"ticker".as_slice() {
        is_within(config, 0, 1, MAX_DELAY)
    } else if kind == b"late".as_slice() {
        is_within(config, 0, 1, MAX_DELAY)
    } else if kind == b"caller".as_slice() {
        is_within(config, 1, 1, MAX_DELAY)
    } else if kind == b"failer".as_slice() {
        is_within(config, 0, i64::from(i32::MIN), i64::from(i32::MAX))
    } else {
        true
    }
}
