ghost use Rattle.std.specs.Prelude.{◌≡◌, ℕ, true, List, [], ◌∷◌, ◌++◌, map};
ghost use Rattle.vx_data.specs.declared.ids.EntryNo.{EntryNo};
ghost use Rattle.vx_call.specs.declared.history.Traced.{Traced};
ghost use Rattle.vx_call.specs.Coming.{moves_on};
ghost use Rattle.vx_call.specs.Lives.{ends_and_stops};
ghost use Rattle.vx_call.specs.Items.{placed};
ghost use Rattle.vx_life.specs.Stores.{LifeStore};
ghost use Rattle.vx_life.specs.Stands.{IsBehind};
ghost use Rattle.vx_context.specs.Stores.{ContextStore, item_of};
ghost use Rattle.vx_core_life.specs.Moving.{tellings, telling_items};
ghost use Rattle.vx_core_life.specs.Knowing.{Knows};

/// What is made ready as an entry brings deployments on is what the machine makes ready behind the outcomes of requests.
pub fn what_comes_is_made_ready()
    ensures { (life : LifeStore) (store : ContextStore) (at : EntryNo) (history : List Traced) (new : Traced) (place : ℕ) → moves_on history new.entry.pass new.entry.call ≡ true → IsBehind life history (history ++ new ∷ []) → Knows store at history (history ++ new ∷ []) → telling_items store at place (tellings life) ≡ map (item_of (history ++ new ∷ [])) (placed history place (ends_and_stops history new)) }
{}
