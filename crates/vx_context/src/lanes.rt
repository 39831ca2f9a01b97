ghost use Rattle.std.specs.Prelude.{◌≡◌};
ghost use Rattle.vx_message.specs.Lanes.{same_lane};

use vx_message::Lane;

/// Whether two lanes are the same one.
pub fn same_lane(lane: Lane, other: Lane) -> bool
    ensures { result ≡ same_lane lane other }
{
    match (lane, other) {
        (Lane::Loop(number), Lane::Loop(other)) => number == other,
        (Lane::Pool, Lane::Pool) => true,
        (Lane::Named(pool), Lane::Named(other)) => pool == other,
        (Lane::Own(context), Lane::Own(other)) => context == other,
        _ => false,
    }
}
