ghost use Rattle.std.specs.Prelude.{◌≡◌, true, List, [], ◌∷◌, ◌++◌};
ghost use Rattle.vx_call.specs.declared.history.Traced.{Traced};
ghost use Rattle.vx_call.specs.Built.{AreStored};
ghost use Rattle.vx_call.specs.Contexts.{is_context};
ghost use Rattle.vx_call.specs.History.{no_mark};
ghost use Rattle.vx_call.specs.Items.{Waiting, waiting};
ghost use Rattle.vx_call.specs.Machine.{row};
ghost use Rattle.vx_call.proofs.Each.{Each};
ghost use Rattle.vx_core_tasks.specs.Named.{NameContexts};

/// The consumers and requests of the empty history name contexts that are there alone, and an entry with the reply of its
/// row keeps it so. Then each task that waits is for a context that is there.
pub fn named_contexts_are_there()
    ensures none { NameContexts [] }
    ensures more { (history : List Traced) (new : Traced) → new.mark ≡ no_mark → new.entry.reply ≡ row history new.entry.pass new.entry.call → NameContexts history → NameContexts (history ++ new ∷ []) }
    ensures waiting { (history : List Traced) → AreStored history → NameContexts history → Each (λ (item : Waiting). is_context history item.context ≡ true) (waiting history) }
{}
