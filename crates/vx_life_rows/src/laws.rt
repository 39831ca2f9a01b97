//! What each entry of a history makes of the lives of verticles.

ghost use Rattle.std.specs.Prelude.{◌≡◌, ◌<◌, ◌+◌, ◌*◌, ◌≤◌, ℕ, ℤ, Bool, List, [], ◌∷◌, ◌++◌, Option, None, Some, true, false, not, length, map, filter, find, All};
ghost use Rattle.std.specs.Option.{option_or};
ghost use Rattle.vx_data.specs.declared.ids.ContextId.{ContextId};
ghost use Rattle.vx_data.specs.declared.ids.DeploymentId.{DeploymentId};
ghost use Rattle.vx_data.specs.declared.ids.PassNo.{PassNo};
ghost use Rattle.vx_data.specs.Ids.{same_context, same_deployment};
ghost use Rattle.vx_message.specs.declared.DoneResult.TheVariants as results;
ghost use Rattle.vx_message.specs.declared.Lane.{Lane};
ghost use Rattle.vx_tree.specs.declared.node.Node.{Node};
ghost use Rattle.vx_tree.specs.Nodes.{deployment_of, is_known, may_be_below, may_stop, without};
ghost use Rattle.vx_call.specs.declared.call.Call.{Call};
ghost use Rattle.vx_call.specs.declared.call.Call.TheVariants as calls;
ghost use Rattle.vx_call.specs.declared.history.Mark.{Mark};
ghost use Rattle.vx_call.specs.declared.history.Traced.{Traced};
ghost use Rattle.vx_call.specs.declared.reply.Reply.{Reply};
ghost use Rattle.vx_call.specs.declared.reply.Reply.TheVariants as replies;
ghost use Rattle.vx_call.specs.declared.reply.Task.TheVariants as tasks;
ghost use Rattle.vx_call.specs.History.{is_accepted};
ghost use Rattle.vx_call.specs.Names.{next_deployment, next_entry};
ghost use Rattle.vx_call.specs.Loops.{sets_loops, standard_instances};
ghost use Rattle.vx_call.specs.Deployments.{deployed_ids, held_deployment};
ghost use Rattle.vx_call.specs.Starts.{Ending, ending_among, deployed_contexts, ended_start, ended_stop, start_ended, start_failed, stop_ended};
ghost use Rattle.vx_call.specs.Stopping.{stop_made};
ghost use Rattle.vx_call.specs.There as machine_there;
ghost use Rattle.vx_call.specs.Ends as machine_ends;
ghost use Rattle.vx_call.specs.Coming.{coming, moves_on};
ghost use Rattle.vx_call.specs.Refusals.{holder_stopping, no_deployment, still_deployed};
ghost use Rattle.vx_call.specs.Items.{Waiting, waiting};
ghost use Rattle.vx_call.specs.Kinds.{kind_of};
ghost use Rattle.vx_call.specs.Machine.{IsLegal};
ghost use Rattle.vx_call.proofs.Apart.{Apart};
ghost use Rattle.vx_call.proofs.Each.{Each};
ghost use Rattle.vx_call.proofs.Quiet.{is_loud};
ghost use Rattle.vx_life.specs.Stores.{LifeStore, no_lives, started_in, closed_in, with_taken, is_deployed, is_gone};
ghost use Rattle.vx_life.specs.Steps.{Deploys, Asks, Fails};
ghost use Rattle.vx_life.specs.Stands.{PartsStand, ComingStands, LifeStands, IsBehind};
ghost use Rattle.vx_life_rows.specs.Tasks.{is_of_lives, task_in};
ghost use Rattle.vx_life_rows.specs.Said.{IsSaid, IsAllSaid, AreTold};
ghost use Rattle.vx_life_rows.specs.Moves.{entry_of, IsStill, AreAskedWithParents, ends_lives, is_deploy};

/// The store with nothing in it is that of the empty history. In a legal history each entry made at most 64 standard
/// instances.
pub fn lives_begin()
    ensures begins { LifeStands no_lives [] }
    ensures few { (history : List Traced) → IsLegal history → standard_instances history ≤ 64 * length history }
{}

/// An entry that moves nothing in the lives of verticles leaves the store, and so does one that is refused. A quiet call
/// moves nothing that neither sets loops nor deploys, and hands out no stop; nor does a call that ends starts and stops,
/// where none is pending.
pub fn still_entries_leave_the_store()
    ensures still { (history : List Traced) (new : Traced) (life : LifeStore) → IsStill history new → LifeStands life history → LifeStands life (history ++ new ∷ []) }
    ensures refused { (history : List Traced) (new : Traced) (life : LifeStore) → is_accepted new.entry.reply ≡ false → LifeStands life history → LifeStands life (history ++ new ∷ []) }
    ensures quiet { (history : List Traced) (new : Traced) → is_loud new.entry.call ≡ false → is_deploy new.entry.call ≡ false → sets_loops new.entry.call ≡ false → stop_made new.entry.call new.entry.reply ≡ [] → IsStill history new }
    ensures none_pending { (history : List Traced) (new : Traced) → ends_lives new.entry.call ≡ true → start_ended history new.entry.pass new.entry.call ≡ None → stop_ended history new.entry.pass new.entry.call ≡ None → IsStill history new }
{}

/// SetLoops, the Take of a stop, and Close, where no deployment is there.
pub fn loops_stops_and_closing_are_noted()
    ensures loops { (history : List Traced) (pass : PassNo) (count : ℕ) (reply : Reply) (states : List (List ℤ)) (mark : Mark) (life : LifeStore) → is_accepted reply ≡ true → LifeStands life history → LifeStands (record life { loops = count }) (history ++ entry_of pass (calls.SetLoops count) reply states mark ∷ []) }
    ensures taken { (history : List Traced) (pass : PassNo) (lane : Lane) (context : ContextId) (states : List (List ℤ)) (mark : Mark) (life : LifeStore) → context.entry.0 < length history → LifeStands life history → LifeStands (record life { stops = map (with_taken context) life.stops }) (history ++ entry_of pass (calls.Take lane) (replies.Task (tasks.Stop context)) states mark ∷ []) }
    ensures closed { (history : List Traced) (pass : PassNo) (reply : Reply) (states : List (List ℤ)) (mark : Mark) (life : LifeStore) → is_accepted reply ≡ true → still_deployed history ≡ None → LifeStands life history → LifeStands (record life { closed = option_or life.closed (Some (next_entry history)) }) (history ++ entry_of pass calls.Close reply states mark ∷ []) }
{}

/// A Deploy adds a deployment below that of its caller, which was not asked to end. All that are there were made before, and
/// the caller's is there.
pub fn deployments_are_added()
    ensures deployed { (history : List Traced) (pass : PassNo) (worker : Bool) (pool : Option (List ℕ)) (tell : Option ContextId) (count : ℕ) (reply : Reply) (states : List (List ℤ)) (mark : Mark) (old life : LifeStore) → is_accepted reply ≡ true → holder_stopping history pass ≡ None → Deploys (next_deployment history) (held_deployment history pass) worker tell count old life → LifeStands old history → LifeStands life (history ++ entry_of pass (calls.Deploy worker pool tell count) reply states mark ∷ []) }
    ensures later { (history : List Traced) (life : LifeStore) → PartsStand life history → All (λ (node : Node). node.id.0.0 < length history) life.tree.there }
    ensures above { (history : List Traced) (life : LifeStore) (pass : PassNo) → PartsStand life history → holder_stopping history pass ≡ None → may_be_below (held_deployment history pass) life.tree.there life.tree.asked ≡ true }
{}

/// An Undeploy, a start that ends well, a start that fails, and a stop that ends: the store is then behind, until all that
/// comes with the entry was said.
pub fn ends_are_noted()
    ensures asked { (history : List Traced) (pass : PassNo) (id : DeploymentId) (tell : Option ContextId) (reply : Reply) (states : List (List ℤ)) (mark : Mark) (old life : LifeStore) → is_accepted reply ≡ true → no_deployment history id ≡ None → AreAskedWithParents history → Asks id tell (next_entry history) old life → LifeStands old history → IsBehind life history (history ++ entry_of pass (calls.Undeploy id tell) reply states mark ∷ []) }
    ensures started { (history : List Traced) (new : Traced) (one : Ending) (old : LifeStore) → is_accepted new.entry.reply ≡ true → ends_lives new.entry.call ≡ true → start_ended history new.entry.pass new.entry.call ≡ Some one → one.result ≡ results.Ok → LifeStands old history → IsBehind (record old { tree = started_in one.context old.tree }) history (history ++ new ∷ []) }
    ensures failed { (history : List Traced) (new : Traced) (one : Ending) (old life : LifeStore) → is_accepted new.entry.reply ≡ true → ends_lives new.entry.call ≡ true → start_failed history new.entry.pass new.entry.call ≡ Some one → AreAskedWithParents history → Fails one.context one.result (next_entry history) old life → LifeStands old history → IsBehind life history (history ++ new ∷ []) }
    ensures stopped { (history : List Traced) (new : Traced) (one : Ending) (old : LifeStore) → is_accepted new.entry.reply ≡ true → ends_lives new.entry.call ≡ true → stop_ended history new.entry.pass new.entry.call ≡ Some one → LifeStands old history → IsBehind (record old { tree = closed_in one.context old.tree; unstopped = without one.context old.unstopped }) history (history ++ new ∷ []) }
    ensures legal { (history : List Traced) → IsLegal history → AreAskedWithParents history }
{}

/// What has to be known before these are noted: which starts and stops are pending, and that their deployments were made.
pub fn ends_are_known()
    ensures start { (history : List Traced) (life : LifeStore) (one : Ending) → PartsStand life history → ended_start history (Some one) ≡ ending_among life.tree.starting one }
    ensures stop { (history : List Traced) (life : LifeStore) (one : Ending) → PartsStand life history → ended_stop history (Some one) ≡ ending_among life.unstopped one }
    ensures of_start { (history : List Traced) (life : LifeStore) (pass : PassNo) (call : Call) (one : Ending) → PartsStand life history → start_ended history pass call ≡ Some one → is_known (deployment_of one.context) life.tree.asked ≡ true }
    ensures there { (history : List Traced) (life : LifeStore) (id : DeploymentId) → PartsStand life history → no_deployment history id ≡ None → is_known id life.tree.asked ≡ true }
{}

/// What comes with an entry that brings deployments on is what the store has to say, in the order of the machine; once all
/// was said, the store is that of the history with the entry.
pub fn what_comes_is_said()
    ensures deployed { (history : List Traced) (new : Traced) (life : LifeStore) → moves_on history new.entry.pass new.entry.call ≡ true → IsBehind life history (history ++ new ∷ []) → filter (is_deployed life) life.deploying ≡ coming deployed_ids machine_ends.is_deployed history new }
    ensures gone { (history : List Traced) (new : Traced) (life : LifeStore) → moves_on history new.entry.pass new.entry.call ≡ true → IsBehind life history (history ++ new ∷ []) → filter (is_gone life) life.ending ≡ coming deployed_ids machine_there.is_gone history new }
    ensures stops { (history : List Traced) (new : Traced) (life : LifeStore) → moves_on history new.entry.pass new.entry.call ≡ true → IsBehind life history (history ++ new ∷ []) → filter (may_stop life.tree) life.tree.to_stop ≡ coming deployed_contexts machine_ends.stops_now history new }
    ensures settled { (history : List Traced) (new : Traced) (life : LifeStore) → moves_on history new.entry.pass new.entry.call ≡ true → IsBehind life history (history ++ new ∷ []) → is_accepted new.entry.reply ≡ true → is_deploy new.entry.call ≡ false → LifeStands (record life { tree = record life.tree { to_stop = filter (λ context. not (may_stop life.tree context)) life.tree.to_stop }; deploying = filter (λ id. not (is_deployed life id)) life.deploying; ending = filter (λ id. not (is_gone life id)) life.ending }) (history ++ new ∷ []) }
{}

/// What is still to come is said one after another, each once, and the right contexts are told.
pub fn all_is_said_once()
    ensures deployed { (life : LifeStore) (id : DeploymentId) → Apart same_deployment life.deploying → find (is_deployed life) life.deploying ≡ Some id → IsSaid same_deployment (is_deployed life) id life.deploying }
    ensures gone { (life : LifeStore) (id : DeploymentId) → Apart same_deployment life.ending → find (is_gone life) life.ending ≡ Some id → IsSaid same_deployment (is_gone life) id life.ending }
    ensures stops { (life : LifeStore) (context : ContextId) → Apart same_context life.tree.to_stop → find (may_stop life.tree) life.tree.to_stop ≡ Some context → IsSaid same_context (may_stop life.tree) context life.tree.to_stop }
    ensures all_deployed { (life : LifeStore) → find (is_deployed life) life.deploying ≡ None → IsAllSaid (is_deployed life) life.deploying }
    ensures all_gone { (life : LifeStore) → find (is_gone life) life.ending ≡ None → IsAllSaid (is_gone life) life.ending }
    ensures all_stopped { (life : LifeStore) → find (may_stop life.tree) life.tree.to_stop ≡ None → IsAllSaid (may_stop life.tree) life.tree.to_stop }
    ensures apart { (life : LifeStore) (before after : List Traced) → ComingStands life before after → Apart same_deployment life.deploying × (Apart same_deployment life.ending × Apart same_context life.tree.to_stop) }
    ensures told { (life : LifeStore) (history : List Traced) (new : Traced) → IsBehind life history (history ++ new ∷ []) → AreTold life (history ++ new ∷ []) life.deploying × AreTold life (history ++ new ∷ []) life.ending }
{}

/// The tasks that wait in a legal history, as far as they tell of the lives of verticles, are those that the store has by
/// their kinds; a stop that waits is of a context that was made before.
pub fn waiting_tasks_are_those_of_the_store()
    ensures tasks { (life : LifeStore) (history : List Traced) → IsLegal history → PartsStand life history → Each (λ (item : Waiting). is_of_lives item.task ≡ true → task_in life (kind_of item.task) ≡ Some item.task) (waiting history) }
    ensures stops { (history : List Traced) → Each (λ (item : Waiting). (context : ContextId) → item.task ≡ tasks.Stop context → context.entry.0 < length history) (waiting history) }
{}
