//! What holds of every history in which each reply is the machine's.
ghost use Rattle.std.specs.Prelude.{List};
ghost use Rattle.vx_call.specs.declared.history.Traced.{Traced};
ghost use Rattle.vx_call.specs.Machine.{IsLegal};
ghost use Rattle.vx_laws.specs.Deliveries.{DeliversOnce};
ghost use Rattle.vx_laws.specs.Demand.{TakesAsFetched};
ghost use Rattle.vx_laws.specs.Leaving.{TakesNothingOnceEnded};
ghost use Rattle.vx_laws.specs.Order.{TakesInOrder};
ghost use Rattle.vx_laws.specs.Outcomes.{EndsRequestsOnce};
ghost use Rattle.vx_laws.specs.Overlap.{HandlersNeverOverlap, LoopsNeverOverlap};
ghost use Rattle.vx_laws.specs.Timers.{FiresInTime};
ghost use Rattle.vx_laws.specs.Turns.{TakesTurns};
ghost use Rattle.vx_laws.specs.Undeploying.{EndsInOrder};

/// A message is taken once, or where it was published, once for each consumer.
pub fn messages_are_delivered_once()
    ensures { (history : List Traced) → IsLegal history → DeliversOnce history }
{}

/// A request has one outcome, which its asker takes once. The message of one that failed with NO_HANDLERS is given to
/// nobody, before or after.
pub fn requests_end_once()
    ensures { (history : List Traced) → IsLegal history → EndsRequestsOnce history }
{}

/// Where the same consumers handle an address throughout, as many choices as there are consumers choose each of them
/// once. The consumer that the reply to a Send or a Request names is the one that was chosen.
pub fn handlers_take_turns()
    ensures { (history : List Traced) → IsLegal history → TakesTurns history }
{}

/// Of two messages that one consumer accepted, the one that was sent later is taken only after the other was: through
/// Pause, Resume and Fetch. So a consumer takes the messages of each one sender in the order of sending.
pub fn messages_are_taken_in_order()
    ensures { (history : List Traced) → IsLegal history → TakesInOrder history }
{}

/// Behind a Pause of a consumer, and until a Resume of it, it takes at most as many messages as are fetched for it.
pub fn messages_are_taken_as_fetched()
    ensures { (history : List Traced) → IsLegal history → TakesAsFetched history }
{}

/// Behind an Unregister of a consumer it takes no message.
pub fn ended_consumers_take_nothing()
    ensures { (history : List Traced) → IsLegal history → TakesNothingOnceEnded history }
{}

/// Where two handlers of one context begin, the one that began first has ended in between.
pub fn handlers_never_overlap()
    ensures { (history : List Traced) → IsLegal history → HandlersNeverOverlap history }
{}

/// Where two tasks of one event loop begin, the one that began first has ended in between.
pub fn loops_never_overlap()
    ensures { (history : List Traced) → IsLegal history → LoopsNeverOverlap history }
{}

/// A timer that fires once has its fire taken once at most. No fire is taken before its time, or behind a CancelTimer of
/// its timer; of a periodic timer none is taken twice for one due moment. At most one fire of a timer waits.
pub fn timers_fire_in_time()
    ensures { (history : List Traced) → IsLegal history → FiresInTime history }
{}

/// A Stop is taken only once all children of its deployment are gone, and none is added then. Once a context is closed,
/// no task of it is taken; only what ran then is finished.
pub fn deployments_end_in_order()
    ensures { (history : List Traced) → IsLegal history → EndsInOrder history }
{}
