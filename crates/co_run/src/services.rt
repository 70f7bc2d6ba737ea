//! The services of an actor: it begins one under the callout's lock, and ends it.
ghost use Rattle.std.specs.Prelude.{◌≡◌};
ghost use Rattle.co_object.specs.declared.Op.TheVariants.{Run};
ghost use Rattle.co_world.proofs.kept.Invariant.{serves_direct};
ghost use Rattle.co_object.specs.declared.RunOp.TheVariants.{Begin, End};
ghost use Rattle.co_program.specs.Actors.{role_of};
ghost use Rattle.co_program.specs.Action.{Asks};
ghost use Rattle.co_program.specs.declared.Asked.TheVariants.{Callout};
ghost use Rattle.co_run.specs.Ready.{HasGoneOn, IsDue};

use crate::actor::{Actor, tell_all};
use crate::book::Book;
use crate::shared::Shared;
use co_hand::Gate;
use co_service::{Finished, Name};
use std::sync::Wait;

impl<'a, B: Book> Actor<'a, B> {
    /// The function of the callout in service is to run, or is skipped; that is due in the program.
    pub(crate) fn begin<N: Name, G: Gate, R: Wait>(
        &mut self,
        rt: &R,
        shared: &Shared<'_, N, G>,
        act: u64,
        i: u32,
        n: u64,
        cpu: u32,
    )
        requires due { IsDue B.notes B.spare shared.now.script.now shared.now.longest N.name self.old (Asks act (Callout i (Run (Begin n cpu)))) }
        ensures { HasGoneOn B.notes B.spare shared.now.script.now shared.now.longest N.name self.old self.new }
    {
        let Some(hold) = &self.hold else {
            unreachable!();
        };
        let made = shared.service.begin(rt, &mut self.passes, cpu, act, hold);
        tell_all(shared.script, &mut self.cursor, &mut self.book, &made.notes);
    }

    /// The service is over, as is due in the program: of the CPU, or of its interrupt where `direct`.
    pub(crate) fn end<N: Name, G: Gate, R: Wait>(
        &mut self,
        rt: &R,
        shared: &Shared<'_, N, G>,
        act: u64,
        i: u32,
        n: u64,
        cpu: u32,
        direct: bool,
    )
        requires due { IsDue B.notes B.spare shared.now.script.now shared.now.longest N.name self.old (Asks act (Callout i (Run (End n cpu)))) }
        requires lane { serves_direct (role_of shared.now.script.now self.old.number) ≡ direct }
        ensures { HasGoneOn B.notes B.spare shared.now.script.now shared.now.longest N.name self.old self.new }
    {
        let passes = &mut self.passes;
        let mut told = Finished::none();
        shared
            .service
            .end_into(rt, passes, cpu, act, direct, &mut told);
        let made = told.answer(self.number, act);
        tell_all(shared.script, &mut self.cursor, &mut self.book, &made.notes);
    }
}
