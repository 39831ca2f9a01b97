ghost use Rattle.std.specs.Prelude.{◌≡◌, ◌+◌, ◌≤◌, ◌++◌, map, vec_len, vec_capacity};
ghost use Rattle.std.specs.List.{list_any};
ghost use Rattle.vx_data.specs.Ids.{same_context};
ghost use Rattle.vx_life.specs.Stores.{is_taken, with_taken, stops_of};

use vx_data::{ContextId, DeploymentId};

/// A context of a verticle, open or closed, and whether its stop was taken.
#[derive(Clone, Copy)]
pub struct Stop {
    pub context: ContextId,
    pub taken: bool,
}

/// Whether the stop of a context was taken.
pub fn is_taken(stops: &[Stop], context: ContextId) -> bool
    ensures { result ≡ is_taken context stops.now }
{
    stops
        .iter()
        .any(|stop| context == stop.context && stop.taken)
}

/// Notes that the stop of a context was taken.
pub fn note_taken(stops: &mut Vec<Stop>, context: ContextId)
    ensures { stops.new.items ≡ map (with_taken context) stops.old.items }
{
    for stop in stops.iter_mut() {
        if context == stop.context {
            stop.taken = true;
        }
    }
}

/// Adds so many contexts of a deployment, for which there is room, whose stops were not taken.
pub fn append_stops(stops: &mut Vec<Stop>, id: DeploymentId, count: u32)
    requires { vec_len stops.old + count ≤ vec_capacity stops.old }
    ensures { stops.new.items ≡ stops.old.items ++ stops_of id 0 count }
{
    for instance in 0..count {
        let context = ContextId {
            entry: id.0,
            instance,
        };
        let stop = Stop {
            context,
            taken: false,
        };
        stops.push(stop).unwrap();
    }
}
