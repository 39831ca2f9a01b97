ghost use Rattle.std.specs.Prelude.{◌≡◌, ◌<◌, ◌≤◌, ◌+◌, ◌++◌, length, map, remove, Some, None, vec_len, vec_capacity};
ghost use Rattle.std.specs.List.{position};
ghost use Rattle.std.proofs.Math.ListN.{set, get_or};
ghost use Rattle.vx_data.specs.Ids.{same_context};
ghost use Rattle.vx_instances.specs.declared.homes.Home.{Home};
ghost use Rattle.vx_instances.specs.Kept.{numbered};

use vx_data::{ContextId, EntryNo};

/// A context, and its verticle where that is at home.
#[derive(Drop)]
pub struct Home<V> {
    pub(crate) context: ContextId,
    pub(crate) verticle: Option<V>,
}

/// The place of a context.
pub(crate) fn place_of<V>(homes: &[Home<V>], context: ContextId) -> Option<usize>
    ensures { result ≡ position (λ (h : Home V). same_context context h.context) homes.now }
{
    homes.iter().position(|home| context == home.context)
}

/// Takes the verticle out of a home.
pub(crate) fn lift<V>(homes: &mut Vec<Home<V>>, at: usize) -> Option<V>
    requires { at < length homes.old.items }
    ensures item { (d : Home V) → result ≡ (get_or homes.old.items at d).verticle }
    ensures left { (d : Home V) → homes.new.items ≡ set homes.old.items at (record { context = (get_or homes.old.items at d).context; verticle = None }) }
{
    homes[at].verticle.take()
}

/// Puts a verticle into a home.
pub(crate) fn lower<V: Drop>(homes: &mut Vec<Home<V>>, at: usize, verticle: V)
    requires { at < length homes.old.items }
    ensures { (d : Home V) → homes.new.items ≡ set homes.old.items at (record { context = (get_or homes.old.items at d).context; verticle = Some verticle }) }
{
    homes[at].verticle = Some(verticle);
}

/// Takes a home away.
pub(crate) fn take_down<V: Drop>(homes: &mut Vec<Home<V>>, at: usize)
    requires { at < length homes.old.items }
    ensures { homes.new.items ≡ remove homes.old.items at }
{
    homes.remove(at);
}

/// Makes homes for the verticles of a deployment, numbered from 0, for which there is room.
pub(crate) fn settle_in<V: Drop>(homes: &mut Vec<Home<V>>, entry: EntryNo, verticles: Vec<V>)
    requires room { vec_len homes.old + length verticles.items ≤ vec_capacity homes.old }
    requires few { length verticles.items ≤ 4294967295 }
    ensures { homes.new.items ≡ homes.old.items ++ numbered entry 0 verticles.items }
{
    let mut instance = 0;
    for verticle in verticles {
        let context = ContextId { entry, instance };
        homes
            .push(Home {
                context,
                verticle: Some(verticle),
            })
            .unwrap();
        instance += 1;
    }
}
