//! Where a frame ends.
ghost use Rattle.std.specs.Prelude.{◌≡◌, length};
ghost use Rattle.vx_frame.specs.Cuts.{IsCut};
ghost use Rattle.vx_message.specs.Framing.{prefix};

/// How many bytes the JSON of a frame may have.
const MAX_LEN: u32 = 1_048_576;

/// How many bytes the length has.
pub(crate) const PREFIX_LEN: usize = 4;

/// What stands at the front of a stream.
pub(crate) enum Cut<'a> {
    /// Less than a whole frame.
    Part,
    /// A length that is refused.
    Refused(u32),
    /// A frame with this JSON.
    Whole(&'a [u8]),
}

/// What stands at the front.
pub(crate) fn front_of(held: &[u8]) -> Cut<'_>
    ensures { IsCut held.now result }
{
    if held.len() < PREFIX_LEN {
        return Cut::Part;
    }
    let (front, rest) = held.split_at(PREFIX_LEN);
    let len = length_of(front);
    if len > MAX_LEN {
        return Cut::Refused(len);
    }
    let len = len as usize;
    if rest.len() < len {
        return Cut::Part;
    }
    Cut::Whole(&rest[..len])
}

/// The length that these four bytes are, the highest first.
fn length_of(bytes: &[u8]) -> u32
    requires { length bytes.now ≡ 4 }
    ensures { prefix result ≡ bytes.now }
{
    u32::from_be_bytes([bytes[0], bytes[1], bytes[2], bytes[3]])
}
