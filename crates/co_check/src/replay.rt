//! The histories of timers and CPUs, line by line.
ghost use Rattle.std.specs.Prelude.{◌≡◌, ◌<◌, ◌≤◌, [], List, is_some, length, map, replicate, IfOk};
ghost use Rattle.co_object.specs.declared.Place.TheVariants as places;
ghost use Rattle.co_object.specs.declared.AnyEntry.TheVariants as of;
ghost use Rattle.co_object.specs.Queue.{Queue};
ghost use Rattle.co_program.specs.Follows.{one_scan};
ghost use Rattle.co_program.specs.Runs.{actors_of, are_direct};
ghost use Rattle.co_program.specs.Scripts.{IsScript};
ghost use Rattle.co_report.specs.declared.line.Line.{Line};
ghost use Rattle.co_check.specs.Cpu.{ShowsQueue, NamesCallout, empty_cpu};
ghost use Rattle.co_check.specs.Lines.{IsLineOf, lines_max};
ghost use Rattle.co_check.specs.Replayed.{IsAfter, IsCalloutTaken, IsQueueTaken, IsLineTaken, opened};

use crate::actors::{may_serve, may_work};
use crate::cpu::CpuQueue;
use crate::fact::PackedFact;
use crate::same::{same_answer, same_reply};
use crate::verdict::Unfit;
use co_object::{Alone, AnyEntry, Arming, Entry, Place, QEntry, QOp, Run, Spec, State};
use co_program::Script;
use co_sbt::{NoMemory, Seq};
use std::alloc::Global;

/// Each callout and each CPU after the lines so far.
#[derive(Drop)]
pub(crate) struct Replay {
    callouts: Vec<Alone>,
    cpus: Vec<CpuQueue>,
    /// How many Scans each CPU had.
    scans: Vec<u32>,
}

impl Replay {
    /// Before the first line.
    pub(crate) fn open(alloc: Global, script: &Script) -> Result<Replay, NoMemory>
        requires { IsScript script.now }
        ensures { IfOk result (IsAfter script.now []) }
    {
        let callouts = callouts_of(alloc, script.timers.as_slice())?;
        let cpus = cpus_of(alloc, script)?;
        let scans = Seq::filled(alloc, script.cpus as usize, 0)?.into_vec();
        Ok(Replay {
            callouts,
            cpus,
            scans,
        })
    }

    /// Takes the entry of the next line, which stands in this place. Err says what is wrong with it; then the replay is of no
    /// more use.
    pub(crate) fn take(
        &mut self,
        script: &Script,
        place: Place,
        entry: &AnyEntry,
    ) -> Result<PackedFact, Unfit>
        requires script { IsScript script.now }
        requires line { (l : Line) × (l.place ≡ place) × (l.entry ≡ entry.now) × IsLineOf script.now l }
        requires after { (above : List Line) × IsAfter script.now above self.old × (length above < lines_max) }
        ensures { (above : List Line) (l : Line) → l.place ≡ place → l.entry ≡ entry.now → IsAfter script.now above self.old → IsLineTaken script.now above l result self.new }
    {
        let nothing = PackedFact::new(false, 0);
        match (place, entry) {
            (Place::Timer(i), AnyEntry::Timer(entry)) => self.take_timer(script, i, entry),
            (Place::Cpu(cpu), AnyEntry::Cpu(entry)) => self.take_cpu(script, cpu, entry),
            _ => Ok(nothing),
        }
    }

    /// Takes the next entry of callout `i`.
    fn take_timer(&mut self, script: &Script, i: u32, entry: &Entry) -> Result<PackedFact, Unfit>
        requires few { length script.now.clients ≤ 16 }
        requires i { i < length self.old.callouts.items }
        ensures { (above : List Line) (l : Line) → l.place ≡ places.Timer i → l.entry ≡ of.Timer entry.now → IsAfter script.now above self.old → IsLineTaken script.now above l result self.new }
    {
        let callout = &mut self.callouts[i as usize];
        match take_callout(script, callout, entry) {
            Ok(listed) => Ok(PackedFact::new(listed, 0)),
            Err(unfit) => Err(unfit),
        }
    }

    /// Takes the next entry of a CPU's journal.
    fn take_cpu(&mut self, script: &Script, cpu: u32, entry: &QEntry) -> Result<PackedFact, Unfit>
        requires few { length script.now.clients ≤ 16 }
        requires cpu { cpu < script.now.cpus }
        requires names { NamesCallout (length script.now.timers) entry.now.op }
        requires after { (above : List Line) × IsAfter script.now above self.old × (length above < lines_max) }
        ensures { (above : List Line) (l : Line) → l.place ≡ places.Cpu cpu → l.entry ≡ of.Cpu entry.now → IsAfter script.now above self.old → IsLineTaken script.now above l result self.new }
    {
        let queue = &mut self.cpus[cpu as usize];
        match take_queue(script, cpu, queue, entry) {
            Ok(()) => {
                let scans = self.scans[cpu as usize];
                self.scans[cpu as usize] = scans + one_scan(&entry.op);
                Ok(PackedFact::new(false, scans))
            }
            Err(cause) => Err(cause),
        }
    }
}

/// A callout for each of these, as it is made.
fn callouts_of(alloc: Global, specs: &[Spec]) -> Result<Vec<Alone>, NoMemory>
    ensures { IfOk result (λ callouts. callouts.items ≡ map opened specs.now) }
{
    let mut callouts = Seq::new(alloc);
    for spec in specs {
        let _run = Run::Idle;
        let _armed: Option<Arming> = None;
        let _state: Option<State> = None;
        callouts.push(Alone::open(*spec, 0))?;
    }
    Ok(callouts.into_vec())
}

/// A queue for each CPU, in which nothing stands.
fn cpus_of(alloc: Global, script: &Script) -> Result<Vec<CpuQueue>, NoMemory>
    requires { IsScript script.now }
    ensures { IfOk result (λ cpus. cpus.items ≡ replicate script.now.cpus (empty_cpu (length script.now.timers) script.now.buckets (are_direct script.now))) }
{
    let timers = script.timers.as_slice();
    let direct = Spec::directs(alloc, timers)?;
    let callouts = timers.len() as u32;
    let mut cpus = Seq::new(alloc);
    for _ in 0..script.cpus {
        let cpu = CpuQueue::open(alloc, callouts, script.buckets, direct.as_slice())?;
        cpus.push(cpu)?;
    }
    Ok(cpus.into_vec())
}

/// Takes the next entry of a callout. The answer is whether it stands in a queue then.
fn take_callout(script: &Script, callout: &mut Alone, entry: &Entry) -> Result<bool, Unfit>
    requires { length script.now.clients ≤ 16 }
    ensures { IsCalloutTaken (actors_of script.now) callout.old entry.now result callout.new }
{
    if !may_serve(script, &callout.spec, entry.actor, &entry.op) {
        return Err(Unfit::Actor);
    }
    match callout.step(&entry.op) {
        Some(reply) => {
            if same_reply(&reply, &entry.reply) {
                Ok(callout.state.off().is_some())
            } else {
                Err(Unfit::Illegal)
            }
        }
        None => Err(Unfit::Illegal),
    }
}

/// Takes the next entry of a CPU's journal.
fn take_queue(script: &Script, cpu: u32, queue: &mut CpuQueue, entry: &QEntry) -> Result<(), Unfit>
    requires few { length script.now.clients ≤ 16 }
    requires names { NamesCallout queue.old.queue.size entry.now.op }
    ensures size { queue.new.queue.size ≡ queue.old.queue.size }
    ensures buckets { queue.new.queue.buckets ≡ queue.old.queue.buckets }
    ensures direct { queue.new.queue.direct ≡ queue.old.queue.direct }
    ensures taken { (q : Queue) → ShowsQueue q queue.old → IsQueueTaken (actors_of script.now) cpu queue.old.queue.buckets queue.old.queue.direct q entry.now result queue.new }
{
    if !may_work(script, cpu, entry.actor, &entry.op) {
        return Err(Unfit::Actor);
    }
    match queue.step(&entry.op) {
        Some(reply) => {
            if same_answer(&reply, &entry.reply) {
                Ok(())
            } else {
                Err(Unfit::Illegal)
            }
        }
        None => Err(Unfit::Illegal),
    }
}

/// 1 for a scan.
fn one_scan(op: &QOp) -> u32
    ensures { result ≡ one_scan op.now }
{
    match op {
        QOp::Scan { .. } => 1,
        _ => 0,
    }
}
