//! A worked example of what it is to play a task, computed from the definitions alone.
#![tactic(auto)]

ghost use Rattle.std.specs.Prelude.{◌≡◌, take};
ghost use Rattle.vx_call.specs.Machine.{answer};
ghost use Rattle.vx_kinds.specs.Meaning.{host_meaning};
ghost use Rattle.vx_verticle.specs.Played.{Played};
ghost use Rattle.vx_played_examples.specs.Examples.{pass, own_loop, history, taken, registered, finished, stretch};

/// An echo is deployed and starts: the replies are the machine's, and the entries of its start are a played stretch.
pub fn echo_starts()
    ensures taken { answer (take 1 history) pass taken.entry.call ≡ taken.entry.reply }
    ensures registered { answer (take 2 history) pass registered.entry.call ≡ registered.entry.reply }
    ensures finished { answer (take 3 history) pass finished.entry.call ≡ finished.entry.reply }
    ensures is_played { Played host_meaning history pass own_loop 1 stretch }
{}
