//! Laws of legal histories: what an actor serves is decided by its own entries.
ghost use Rattle.std.specs.Prelude.{◌≡◌, ℕ, Bool, List, true, is_some};
ghost use Rattle.co_life.specs.Seen.{own};
ghost use Rattle.co_object.specs.Actors.{Actors};
ghost use Rattle.co_object.specs.declared.note.Entry.{Entry};
ghost use Rattle.co_object.specs.declared.note.QEntry.{QEntry};
ghost use Rattle.co_object.specs.declared.spec.Spec.{Spec};
ghost use Rattle.co_object.specs.History.{IsLegal, server, state};
ghost use Rattle.co_object.specs.Journal.{IsLegalQueue, queue};
ghost use Rattle.co_object.specs.Serve.{begin, end};
ghost use Rattle.co_desk.specs.Serving.{Runs, Waits, lane_actor, served_in, service_in, slot};
ghost use Rattle.co_desk.specs.Stories.{by, queue_by};

/// What a CPU's queue has in service, or its interrupt's where `direct`, is what that actor's own entries say.
#[tactic(auto, using(crate::proofs::Serving::slot_by_own))]
pub fn served_by_own()
    ensures { (m : ℕ) (directs : List Bool) (actors : Actors) (cpu : ℕ) (direct : Bool) (J : List QEntry) → IsLegalQueue actors cpu m directs J
        → slot direct (queue m directs J) ≡ served_in direct (own queue_by (lane_actor direct actors cpu) J) }
{}

/// Where the own entries of a callout's server on a CPU say that the arming waits for the lock, its begin is possible.
#[tactic(auto, using(crate::proofs::Serving::may_begin))]
pub fn begins_by_own()
    ensures { (cpu : ℕ) (actors : Actors) (spec : Spec) (H : List Entry) (n : ℕ) → IsLegal actors spec H
        → service_in (own by (server actors spec cpu) H) ≡ Waits n → is_some (begin (state spec H) n cpu) ≡ true }
{}

/// Where they say that it runs or was skipped, its end is possible.
#[tactic(auto, using(crate::proofs::Serving::may_end))]
pub fn ends_by_own()
    ensures { (cpu : ℕ) (actors : Actors) (spec : Spec) (H : List Entry) (n : ℕ) → IsLegal actors spec H
        → service_in (own by (server actors spec cpu) H) ≡ Runs n → is_some (end (state spec H) n cpu) ≡ true }
{}
