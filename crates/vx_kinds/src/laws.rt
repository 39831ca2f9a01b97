//! Laws of the host's verticles.
ghost use Rattle.std.specs.Prelude.{◌≡◌, ℤ, List};
ghost use Rattle.vx_verticle.specs.declared.verticle.Event.{Event};
ghost use Rattle.vx_kinds.specs.declared.settings.Settings.{Settings};
ghost use Rattle.vx_kinds.specs.States.{state_of, kind_of, settings_of, own_of};
ghost use Rattle.vx_kinds.specs.Hosts.{due, due_from};

/// A state says of which kind its verticle is, what the verticle was given, and what it keeps. So what is due by a state
/// is due by these.
pub fn states_are_read_as_written()
    ensures kind { (kind : ℤ) (settings : Settings) (own : List ℤ) → kind_of (state_of kind settings own) ≡ kind }
    ensures settings { (kind : ℤ) (settings : Settings) (own : List ℤ) → settings_of (state_of kind settings own) ≡ settings }
    ensures own { (kind : ℤ) (settings : Settings) (own : List ℤ) → own_of (state_of kind settings own) ≡ own }
    ensures due { (kind : ℤ) (settings : Settings) (own : List ℤ) (event : Event) → due (state_of kind settings own) event ≡ due_from kind settings own event.task }
{}
