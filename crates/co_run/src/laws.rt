//! The laws of runs on threads, each the contract of a function that does nothing.
ghost use Rattle.std.specs.Prelude.{◌≡◌, true};
ghost use Rattle.co_program.specs.declared.Script.{Script};
ghost use Rattle.co_script.specs.Fits.{fits};
ghost use Rattle.co_desk.specs.Params.{AreParams};
ghost use Rattle.co_run.specs.Acting.{HasLocks, params_of};

/// A script that fits has all that a run of it needs: the locks that it names exist, and a service takes its parameters.
#[tactic(auto, using(crate::proofs::FittingScripts::fits_locks, crate::proofs::FittingScripts::fits_params))]
pub fn fitting_scripts_can_run()
    ensures locks { (s : Script) → fits s ≡ true → HasLocks s }
    ensures params { (s : Script) → fits s ≡ true → AreParams (params_of s) }
{}
