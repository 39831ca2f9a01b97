//! What comes with an entry that brings deployments on: contexts are told how deploying ended and that deployments are gone,
//! and verticles stop.

ghost use Rattle.std.specs.Prelude.{◌≡◌, ◌<◌, ◌≤◌, ◌+◌, ◌++◌, ◌∷◌, [], length, IfSome, IfNone};
ghost use Rattle.vx_core_life.specs.Moving.{AreApart, SaysNext, SaysNone, tellings, said, promised, telling_item, telling_items, is_told};

use vx_context::Contexts;
use vx_data::{ContextId, EntryNo};
use vx_life::Life;
use vx_message::ItemKind;

/// A task that tells of the lives of verticles, and the context that it is for, if there is one.
#[derive(Clone, Copy)]
pub struct Telling {
    pub to: Option<ContextId>,
    pub kind: ItemKind,
}

/// Makes ready what comes with an entry, in order, at places from this one on: nothing for a context that is closed. Each
/// place was put by for it. It takes no memory.
pub fn move_on(life: &mut Life, contexts: &mut Contexts, at: EntryNo, first: u64)
    requires owed { promised life.old ≤ contexts.old.owed }
    requires place { first ≤ length contexts.old.waiting }
    ensures said { AreApart life.old → life.new ≡ said life.old }
    ensures told { AreApart life.old → contexts.new ≡ record contexts.old { waiting = contexts.old.waiting ++ telling_items contexts.old at first (tellings life.old); owed = contexts.new.owed; room = contexts.new.room } }
    ensures owed { promised life.new ≤ contexts.new.owed }
    ensures room { contexts.old.room ≤ contexts.new.room }
{
    let mut place = first;
    while let Some(telling) = next_telling(life) {
        place = tell(contexts, at, place, telling);
    }
}

// The first task that comes, if there is one: the end of a deploying, then the end of a deployment, then a stop. From now on
// it is said.
fn next_telling(life: &mut Life) -> Option<Telling>
    ensures some { AreApart life.old → IfSome result (SaysNext life.old life.new) }
    ensures none { IfNone result (SaysNone life.old) }
    ensures fewer { IfSome result (λ telling. promised life.new < promised life.old) }
    ensures same { IfNone result (life.new ≡ life.old) }
{
    if let Some(id) = life.next_deployed() {
        return Some(Telling {
            to: life.deploy_told(id),
            kind: ItemKind::DeployEnd(id),
        });
    }
    if let Some(id) = life.next_gone() {
        return Some(Telling {
            to: life.undeploy_told(id),
            kind: ItemKind::UndeployEnd(id),
        });
    }
    match life.next_stop() {
        Some(context) => Some(Telling {
            to: Some(context),
            kind: ItemKind::Stop(context),
        }),
        None => None,
    }
}

// Makes a task ready at a place, where its context is open, and says which place is next.
fn tell(contexts: &mut Contexts, at: EntryNo, place: u64, telling: Telling) -> u64
    requires owed { 0 < contexts.old.owed }
    requires place { place ≤ length contexts.old.waiting }
    ensures told { contexts.new ≡ record contexts.old { waiting = contexts.old.waiting ++ telling_item contexts.old at place telling; owed = contexts.new.owed; room = contexts.new.room } }
    ensures next { result ≡ place + length (telling_item contexts.old at place telling) }
    ensures within { result ≤ length contexts.new.waiting }
    ensures owed { contexts.old.owed ≤ contexts.new.owed + 1 }
    ensures room { contexts.old.room ≤ contexts.new.room }
{
    match open_one(contexts, telling.to) {
        Some(context) => {
            contexts.put_kept(at, place, context, telling.kind);
            let _count = contexts.items().len();
            place + 1
        }
        None => place,
    }
}

// The context that is told, where it is open.
fn open_one(contexts: &Contexts, to: Option<ContextId>) -> Option<ContextId>
    ensures { result ≡ is_told contexts.now to }
{
    to.filter(|context| contexts.is_open(*context))
}
