//! The functions of a script as a handler.
ghost use Rattle.std.specs.Prelude.{◌≡◌, ◌≤◌, ◌<◌, ◌∷◌, [], IfOk, length, None};
ghost use Rattle.std.specs.List.{AllByRecursion};
ghost use Rattle.std.specs.Option.{option_copied, option_copied_mut};
ghost use Rattle.co_program.specs.Calls.{plain_op};
ghost use Rattle.co_program.specs.Scripts.{IsScript};
ghost use Rattle.co_hand.specs.Functions.{functions_of, needs_of, CallExists, Makes, Runs, scene_of};
ghost use Rattle.co_hand.specs.Handlers.{Serves, HoldStays};

use crate::fire::Fire;
use crate::handler::Handler;
use crate::operation::plain_op;
use crate::port::Port;
use co_lock::Hold;
use co_program::{Act, Acts, Script};
use co_sbt::{NoMemory, Seq};
use std::alloc::Global;
use std::marker::Model;

/// The functions of a script. Each makes its acts in order, each once, through the port.
#[derive(Drop)]
pub struct FuncTable {
    hz: u32,
    callouts: u32,
    cpus: u32,
    funcs: Seq<Acts>,
}

impl Model for FuncTable {
    ghost use Rattle.co_hand.specs.Functions.{Functions, AreSound};

    ghost Value = { Functions };

    ghost view = { λ t. record { hz = t.hz; callouts = t.callouts; cpus = t.cpus; funcs = t.funcs } };

    ghost invariant = { λ t. AreSound (record { hz = t.hz; callouts = t.callouts; cpus = t.cpus; funcs = t.funcs }) };
}

impl FuncTable {
    /// The functions of the script, which are copied. `NoMemory` where there is no room for the copies.
    pub fn new(alloc: Global, script: &Script) -> Result<FuncTable, NoMemory>
        requires { IsScript script.now }
        ensures { IfOk result (λ table. table ≡ functions_of script.now) }
    {
        let funcs = copies(alloc, script.funcs.as_slice())?;
        Ok(FuncTable {
            hz: script.hz,
            callouts: script.timers.as_slice().len() as u32,
            cpus: script.cpus,
            funcs,
        })
    }

    /// Makes the calls of a function under this hold. A function that the script doesn't have makes none.
    fn make_calls<P: Port>(&self, fire: &Fire, func: u32, hold: Option<&Hold<'_>>, port: &mut P)
        requires { Serves (needs_of self.now) (P.state port.old) fire.now func }
        ensures { Runs self.now fire.now func (option_copied hold.entry) (P.state port.old) (P.state port.new) }
    {
        if let Some(acts) = self.funcs.as_slice().get(func as usize) {
            make_each(self.hz, acts.as_slice(), fire, hold, port);
        }
    }
}

/// Makes the call that an act of the function asks for, under this hold.
fn make_one<P: Port>(hz: u32, act: &Act, fire: &Fire, hold: Option<&Hold<'_>>, port: &mut P)
    requires low { 1 ≤ hz }
    requires high { hz ≤ 1000000 }
    requires exists { CallExists (length (P.state port.old).specs) (P.state port.old).cpus (plain_op act.now hz (scene_of fire.now)) }
    requires room { 0 < (P.state port.old).room }
    ensures { Makes hz (scene_of fire.now) (act.now ∷ []) (option_copied hold.entry) (P.state port.old) (P.state port.new) }
{
    match plain_op(act, hz, fire.at, fire.cpu, Some(fire.i)) {
        Some((i, op)) => {
            port.call(i, &op, hold);
        }
        None => unreachable!(),
    }
}

/// Makes the calls that the acts of the function ask for, in order, under this hold.
fn make_each<P: Port>(hz: u32, acts: &[Act], fire: &Fire, hold: Option<&Hold<'_>>, port: &mut P)
    requires low { 1 ≤ hz }
    requires high { hz ≤ 1000000 }
    requires exist { AllByRecursion (λ act. CallExists (length (P.state port.old).specs) (P.state port.old).cpus (plain_op act hz (scene_of fire.now))) acts.now }
    requires room { length acts.now ≤ (P.state port.old).room }
    ensures { Makes hz (scene_of fire.now) acts.now (option_copied hold.entry) (P.state port.old) (P.state port.new) }
{
    for act in acts {
        make_one(hz, act, fire, hold, port);
    }
}

/// The acts of each function, copied.
fn copies(alloc: Global, funcs: &[Acts]) -> Result<Seq<Acts>, NoMemory>
    ensures { IfOk result (λ copied. copied ≡ funcs.now) }
{
    let mut copied = Seq::new(alloc);
    for acts in funcs {
        copied.push(Seq::copy_of(alloc, acts.as_slice())?)?;
    }
    Ok(copied)
}

impl Handler for FuncTable {
    ghost use Rattle.co_hand.specs.Functions.{needs_of, HasMadeActs};

    ghost needs = { needs_of };

    ghost runs = { HasMadeActs };

    fn run<P: Port>(&mut self, fire: &Fire, hold: Option<&mut Hold<'_>>, port: &mut P)
        requires { Serves (needs_of self.old) (P.state port.old) fire.now fire.now.func }
        ensures calls { Runs self.old fire.now fire.now.func (option_copied_mut hold.entry) (P.state port.old) (P.state port.new) }
        ensures hold { HoldStays hold.entry hold.exit }
        ensures same { self.new ≡ self.old }
    {
        match hold {
            Some(hold) => self.make_calls(fire, fire.func, Some(hold), port),
            None => self.make_calls(fire, fire.func, None, port),
        }
    }

    fn run_unlock<P: Port>(&mut self, fire: &Fire, hold: Hold<'_>, port: &mut P)
        requires { Serves (needs_of self.old) (P.state port.old) fire.now fire.now.func }
        ensures calls { Runs self.old fire.now fire.now.func None (P.state port.old) (P.state port.new) }
        ensures same { self.new ≡ self.old }
    {
        drop(hold);
        self.make_calls(fire, fire.func, None, port);
    }

    fn drained<P: Port>(&mut self, fire: &Fire, func: u32, port: &mut P)
        requires { Serves (needs_of self.old) (P.state port.old) fire.now func }
        ensures calls { Runs self.old fire.now func None (P.state port.old) (P.state port.new) }
        ensures same { self.new ≡ self.old }
    {
        self.make_calls(fire, func, None, port);
    }
}
