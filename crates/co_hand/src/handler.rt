//! The functions of callouts.

use crate::fire::Fire;
use crate::port::Port;
use co_lock::Hold;

/// The functions of callouts, by their numbers. A function makes calls through a port.
///
/// A port serves a handler where it has the handler's callouts and CPUs, and room for the calls of the function. The port
/// keeps its specs, its CPUs and its origin, and has made the function's calls after those before. The handler may wait,
/// as the port may.
///
/// **What to write for `runs`.** Whoever has the functions run knows by `runs` alone that they did, each once: told this, under this
/// hold, with these calls. So say in it what a run leaves in the handler and which calls it makes: that a counter is one more, that the
/// argument is kept, that the only call arms the callout again. Where no one has to know that, take
/// `λ before fire drain hold calls after. ⊤`.
pub trait Handler {
    ghost use Rattle.std.specs.Prelude.{◌≡◌, ℕ, List, Option, Some, None};
    ghost use Rattle.std.specs.Option.{option_copied_mut};
    ghost use Rattle.co_lock.specs.declared.held.Held.{Held};
    ghost use Rattle.co_hand.specs.declared.fire.Fire.{Fire};
    ghost use Rattle.co_hand.specs.declared.port_call.PortCall.{PortCall};
    ghost use Rattle.co_hand.specs.Handlers.{Needs, Serves, HasRun, HoldStays};

    // The callouts and CPUs of which its functions speak, and how many calls it makes for a function.
    ghost needs: { Self → Needs };

    // What it is to run a function: of the handler before, what it is told, the function of the asynchronous drain where it is one of
    // these and none where it is that of the service, the hold under which it runs, its calls through the port in their order, and the
    // handler after.
    ghost runs: { Self → Fire → Option ℕ → Option Held → List PortCall → Self → Type 0 };

    /// Runs the function of the service, under the hold of the callout's lock where it has one. The hold is kept.
    fn run<P: Port>(&mut self, fire: &Fire, hold: Option<&mut Hold<'_>>, port: &mut P)
        requires { Serves (needs self.old) (P.state port.old) fire.now fire.now.func }
        ensures port { HasRun runs self.old fire.now None (option_copied_mut hold.entry) ((needs self.old).calls fire.now.func) (P.state port.old) (P.state port.new) self.new }
        ensures needs { needs self.new ≡ needs self.old }
        ensures hold { HoldStays hold.entry hold.exit };

    /// Releases the hold, and then runs the function of the service: that of a callout with `CALLOUT_RETURNUNLOCKED`.
    fn run_unlock<P: Port>(&mut self, fire: &Fire, hold: Hold<'_>, port: &mut P)
        requires { Serves (needs self.old) (P.state port.old) fire.now fire.now.func }
        ensures port { HasRun runs self.old fire.now None None ((needs self.old).calls fire.now.func) (P.state port.old) (P.state port.new) self.new }
        ensures needs { needs self.new ≡ needs self.old };

    /// Runs the function `func` of an asynchronous drain, without a hold, once the service is over.
    fn drained<P: Port>(&mut self, fire: &Fire, func: u32, port: &mut P)
        requires { Serves (needs self.old) (P.state port.old) fire.now func }
        ensures port { HasRun runs self.old fire.now (Some func) None ((needs self.old).calls func) (P.state port.old) (P.state port.new) self.new }
        ensures needs { needs self.new ≡ needs self.old };
}
