ghost use Rattle.std.specs.Prelude.{◌≡◌, option_map};
ghost use Rattle.vx_words.specs.Reading.{pass_at};

use crate::number::number;
use crate::word::{split_word, trim};
use vx_data::PassNo;

/// The pass that a line names, where there are so many, and what stands behind it. Pass 0 need not be named.
#[tactic(auto, unfolding(crate::specs::Reading::number_in))]
pub fn pass(passes: u64, bytes: &[u8]) -> Option<(PassNo, &[u8])>
    ensures { option_map (λ x. (x.0, x.1.now)) result ≡ pass_at passes bytes.now }
{
    match bytes {
        [b'@', named @ ..] => {
            let (digits, tail) = split_word(named);
            let pass = number(digits)?;
            if pass < passes {
                Some((PassNo(pass), trim(tail)))
            } else {
                None
            }
        }
        _ => Some((PassNo(0), bytes)),
    }
}
