//! The whole program of an actor.
ghost use Rattle.std.specs.Prelude.{◌≡◌};
ghost use Rattle.co_run.specs.Jobs.{IsJob};
ghost use Rattle.co_run.specs.Ready.{HasPlayed, HasPlayedOn, IsReady};

use crate::actor::Actor;
use crate::book::Book;
use crate::shared::Shared;
use co_hand::Gate;
use co_program::Cursor;
use co_sbt::NoMemory;
use co_service::{Name, Passes};
use std::sync::Wait;

impl<'a, B: Book> Actor<'a, B> {
    /// An actor before its first act. Its passes have seen nothing, and its book is empty.
    pub(crate) fn begins<N: Name, G: Gate>(
        shared: &Shared<'_, N, G>,
        number: u32,
        passes: Passes,
        book: B,
    ) -> Actor<'a, B>
        requires job { IsJob shared.now.script.now N.name number passes (B.notes book) (B.spare book) }
        ensures ready { IsReady B.notes B.spare shared.now.script.now shared.now.longest N.name result }
        ensures number { result.number ≡ number }
    {
        let _ = shared;
        Actor {
            number,
            passes,
            cursor: Cursor::start(),
            hold: None,
            book,
            own: 0,
        }
    }

    /// Steps until nothing of the program is left, or the actor is refused memory between two services.
    fn play_on<N: Name, G: Gate, R: Wait + Sync>(
        &mut self,
        rt: &R,
        shared: &Shared<'a, N, G>,
    ) -> Result<(), NoMemory>
        requires ready { IsReady B.notes B.spare shared.now.script.now shared.now.longest N.name self.old }
        ensures { HasPlayedOn B.notes B.spare shared.now.script.now shared.now.longest N.name self.old self.new result }
    {
        for _ in rt.forever() {
            match self.step(rt, shared) {
                Ok(false) => {}
                Ok(true) => return Ok(()),
                Err(refused) => return Err(refused),
            }
        }
        unreachable!()
    }

    /// Plays its whole program. After `NoMemory` it has let go of its lock and has nothing in service, and as an interrupt it
    /// has made all Scans of its program, for which its CPU waits.
    pub(crate) fn play<N: Name, G: Gate, R: Wait + Sync>(
        &mut self,
        rt: &R,
        shared: &Shared<'a, N, G>,
    ) -> Result<(), NoMemory>
        requires ready { IsReady B.notes B.spare shared.now.script.now shared.now.longest N.name self.old }
        ensures { HasPlayed B.notes B.spare shared.now.script.now N.name self.old self.new result }
    {
        match self.play_on(rt, shared) {
            Ok(()) => Ok(()),
            Err(refused) => {
                self.leave(rt, shared);
                Err(refused)
            }
        }
    }
}
