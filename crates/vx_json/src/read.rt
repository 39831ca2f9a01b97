//! The body of a JSON text.
ghost use Rattle.std.specs.Prelude.{◌≡◌, Ok, Err, IfOk, IfErr};
ghost use Rattle.vx_data.specs.Tree.{Tree};
ghost use Rattle.vx_json.specs.Answers.{IsAnswer};
ghost use Rattle.vx_json.specs.Gives.{Gives};
ghost use Rattle.vx_json.specs.Grammar.{IsJson};
ghost use Rattle.vx_json.specs.Reading as reading;
ghost use Rattle.vx_json.specs.declared.fault.JsonFault.TheVariants.{BadJson, Deep};

use crate::fault::JsonFault;
use crate::kept::MAX_DEPTH;
use crate::token::skip;
use crate::value::value_at;
use std::alloc::Global;
use vx_data::Body;

/// How deep a text may nest arrays and objects.
pub const MAX_NESTING: u32 = 127;

/// The body of a JSON text: RFC 8259, with whole numbers from -2^63 to 2^63 - 1 alone, written
/// without point, exponent or leading zero, and not as `-0`. White space may stand round it. Of a
/// repeated key the last value stays.
///
/// `BadJson` comes exactly where the bytes are no such text with nesting of at most 127, and `Deep`
/// exactly where they are one and the body's depth would pass 100.
pub fn read_body(alloc: Global, text: &[u8]) -> Result<Body, JsonFault>
    // What is read stands there.
    ensures found { IfOk result (λ body. (t : Tree) × IsJson t text.now × IsAnswer t (Ok body)) }
    ensures deep { IfErr result (λ fault. fault ≡ Deep → (t : Tree) × IsJson t text.now × IsAnswer t (Err Deep)) }
    // What stands there is read, or is too deep, unless memory runs out.
    ensures only { (t : Tree) → IsJson t text.now → IsAnswer t result }
{
    let body = json_of(alloc, text)?;
    if body.depth() > MAX_DEPTH {
        return Err(JsonFault::Deep);
    }
    Ok(body)
}

/// The body of a text, or one that is too deep.
#[tactic(auto, unfolding(crate::specs::Reading::json_of))]
fn json_of(alloc: Global, text: &[u8]) -> Result<Body, JsonFault>
    ensures { Gives (λ body. body) result (reading.json_of text.now) }
{
    let (body, rest) = value_at(alloc, skip(text), MAX_NESTING)?;
    if !skip(rest).is_empty() {
        return Err(JsonFault::BadJson);
    }
    Ok(body)
}
