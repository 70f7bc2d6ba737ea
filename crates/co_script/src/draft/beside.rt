//! A section that is read on its own, beside others, and put into the draft where it stands.
ghost use Rattle.std.specs.Prelude.{◌≡◌, ◌≤◌, ◌+◌, true, IfOk, IfSome, MatchBool, length};
ghost use Rattle.co_text.specs.Fallible.{Gives};
ghost use Rattle.co_text.specs.Lines.{Line, content};
ghost use Rattle.co_script.specs.Beside.{HaveOneFrame, Begins, Grows, SaysAct, MayTakeActs, with_acts};

use super::Draft;
use co_grammar::{Kind, Opener, forms};
use co_lock::LockKind;
use co_object::Spec;
use co_program::{Act, Acts, Script, When};
use co_sbt::{NoMemory, Sbt, Seq};
use co_text::{Cause, Words};
use std::alloc::Global;

impl Draft {
    /// A draft of the same frame, where a section of this kind has just begun. `NoMemory` where there is no room for it.
    pub fn beside(&self, alloc: Global, stage: Kind) -> Result<Draft, NoMemory>
        ensures frame { IfOk result (HaveOneFrame self.now) }
        ensures begins { IfOk result (Begins stage) }
    {
        let locks = Seq::copy_of(alloc, self.script.locks.as_slice())?;
        let timers = Seq::copy_of(alloc, self.script.timers.as_slice())?;
        Ok(self.framed(alloc, stage, locks, timers))
    }

    /// A draft of the same frame, whose locks and timers these are, where a section of this kind has just begun.
    fn framed(&self, alloc: Global, stage: Kind, locks: Seq<LockKind>, timers: Seq<Spec>) -> Draft
        requires locks { locks ≡ self.now.script.locks }
        requires timers { timers ≡ self.now.script.timers }
        ensures frame { HaveOneFrame self.now result }
        ensures begins { Begins stage result }
    {
        let script = Script {
            version: self.script.version,
            hz: 1000,
            cpus: self.script.cpus,
            buckets: 256,
            locks,
            timers,
            funcs: Seq::new(alloc),
            clients: Seq::new(alloc),
            ticks: Seq::new(alloc),
            turns: Seq::new(alloc),
        };
        Draft {
            script,
            stage,
            funcs: self.funcs,
            acts: Seq::new(alloc),
            clock: Sbt::zero(),
            count: 0,
        }
    }

    /// The act that a line of the open section says, where it may be added.
    fn act_said(&self, first: &[u8], words: &mut Words) -> Option<Act>
        ensures { IfSome result (SaysAct self.now first.now words.old) }
    {
        // Names the type that lies two deep in an act: the check needs it here.
        let _nested = When::At(Sbt::zero());
        let Ok(Opener::Act(verb)) = self.opener_of(first) else {
            return None;
        };
        if !self.may_stand(Opener::Act(verb)) {
            return None;
        }
        let mut act = Act::Unlock;
        let Ok(()) = forms::act(self.stage.is_func(), verb, words, &mut act) else {
            return None;
        };
        match self.refuse(&act) {
            Ok(()) => Some(act),
            Err(_) => None,
        }
    }

    /// Takes a line of the open section, by its part before the comment. False where it is no such line, or is bad: then nothing is taken.
    pub fn grow(&mut self, part: Result<&[u8], Cause>) -> Result<bool, NoMemory>
        ensures { (line : Line) → Gives (λ part. part.now) part.entry (content line) →
            IfOk result (λ took. MatchBool took (Grows line self.old self.new) (self.new ≡ self.old)) }
    {
        let Ok(part) = part else {
            return Ok(false);
        };
        let mut words = Words::new(part);
        let Some(first) = words.next() else {
            return Ok(true);
        };
        let Some(act) = self.act_said(first, &mut words) else {
            return Ok(false);
        };
        self.add(&act)?;
        Ok(true)
    }

    /// The acts of the open section, and the time of its last `now` or `tick`.
    pub fn into_section(self) -> (Acts, Sbt)
        ensures { result ≡ (self.acts, self.clock) }
    {
        let Draft {
            script,
            acts,
            clock,
            ..
        } = self;
        drop(script);
        (acts, clock)
    }

    /// Whether acts name and mean the same in both drafts.
    fn has_frame_of(&self, frame: &Draft) -> bool
        ensures { result ≡ true → HaveOneFrame frame.now self.now }
    {
        if self.script.version != frame.script.version || self.script.cpus != frame.script.cpus {
            return false;
        }
        if self.script.locks.as_slice() != frame.script.locks.as_slice() {
            return false;
        }
        let timers = self.script.timers.as_slice().len();
        self.funcs == frame.funcs && timers == frame.script.timers.as_slice().len()
    }

    /// Whether a section of this kind has just begun.
    fn begins(&self, stage: Kind) -> bool
        ensures { result ≡ true → Begins stage self.now }
    {
        self.stage == stage && self.acts.as_slice().is_empty() && self.clock.raw() == 0
    }

    /// Whether a section of this kind has just begun, which may have this many acts that were read against this frame.
    pub fn may_take(&self, frame: &Draft, stage: Kind, number: usize) -> bool
        ensures { result ≡ true → MayTakeActs frame.now stage number self.now }
    {
        self.has_frame_of(frame)
            && self.begins(stage)
            && number <= 262_144
            && self.count as usize + number <= 262_144
    }

    /// Gives the section that has just begun its acts and its time.
    pub fn take(&mut self, acts: Acts, clock: Sbt)
        requires { self.old.count + length acts ≤ 262144 }
        ensures { self.new ≡ with_acts self.old acts clock (self.old.count + length acts) }
    {
        self.count += acts.as_slice().len() as u32;
        self.acts = acts;
        self.clock = clock;
    }
}
