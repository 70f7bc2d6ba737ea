//! A law of passes that have seen nothing.
ghost use Rattle.std.specs.Prelude.{ℕ, Bool};
ghost use Rattle.co_desk.specs.declared.params.Params.{Params};
ghost use Rattle.co_desk.specs.Name.{ServiceName};
ghost use Rattle.co_desk.specs.Params.{actors_of};
ghost use Rattle.co_desk.specs.Services.{IsFree};
ghost use Rattle.co_desk.specs.Serving.{lane_actor};
ghost use Rattle.co_service.specs.Booted.{booted};

/// Who has seen nothing has nothing in service.
#[tactic(auto, using(crate::proofs::Lasts::booted_free))]
pub fn begins_free()
    ensures { (name : ServiceName) (p : Params) (direct : Bool) (cpu : ℕ) → IsFree direct (booted name p (lane_actor direct (actors_of p) cpu)) cpu }
{}
