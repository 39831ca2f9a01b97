//! What holds of the verticles that are kept, in every history in which each reply is the machine's.
ghost use Rattle.std.specs.Prelude.{List};
ghost use Rattle.vx_call.specs.declared.history.Traced.{Traced};
ghost use Rattle.vx_call.specs.Machine.{IsLegal};
ghost use Rattle.vx_instances.specs.Laws.{HandsOutWhatIsKept, EachHasState, KeepsWhatComesBack};

/// A Take of a handler's task of a verticle hands out the verticle that is kept, with its state of the history.
pub fn takes_hand_out_what_is_kept()
    ensures kept { (history : List Traced) → IsLegal history → HandsOutWhatIsKept history }
    ensures stated { (history : List Traced) → IsLegal history → EachHasState history }
{}

/// The verticle that a Finish gives back is kept as long as its context is open.
pub fn what_comes_back_is_kept()
    ensures { (history : List Traced) → IsLegal history → KeepsWhatComesBack history }
{}
