//! What is known of actors that a step would leave as they are.
ghost use Rattle.std.specs.Prelude.{◌≡◌, ◌<◌, ℕ, get_or};
ghost use Rattle.co_core.specs.declared.resting.Known.TheVariants.{Nothing};
ghost use Rattle.co_core.specs.Resting.{HasLearnt};

use co_lock::Held;

// The most actors of a script: 16 clients, 16 CPUs and 16 interrupts.
const MOST_ACTORS: usize = 48;

/// What is known of an actor.
#[derive(Clone, Copy)]
pub(crate) enum Known {
    /// Nothing.
    Nothing,
    /// It has finished, and is asked no more.
    Ended,
    /// It takes this next, and another held the lock when it was asked. It is not asked before that is free.
    Wants(Held),
}

/// What is known of the actors.
#[derive(Drop)]
pub(crate) struct Resting {
    known: [Known; MOST_ACTORS],
}

impl Resting {
    /// Nothing is known.
    pub(crate) fn none() -> Resting
        ensures { (a : ℕ) → get_or result.known a Nothing ≡ Nothing }
    {
        Resting {
            known: [Known::Nothing; MOST_ACTORS],
        }
    }

    /// What is known of the actor.
    pub(crate) fn known(&self, actor: u32) -> Known
        requires { actor < 48 }
        ensures { result ≡ get_or self.now.known actor Nothing }
    {
        self.known[actor as usize]
    }

    /// Nothing is known of the actor any more.
    pub(crate) fn forget(&mut self, actor: u32)
        requires { actor < 48 }
        ensures { HasLearnt self.old.known actor Nothing self.new.known }
    {
        self.known[actor as usize] = Known::Nothing;
    }

    /// This is known of the actor now, of whom nothing was. Nothing, which is what most steps come to, writes nothing.
    pub(crate) fn learn(&mut self, actor: u32, known: Known)
        requires actor { actor < 48 }
        requires nothing { get_or self.old.known actor Nothing ≡ Nothing }
        ensures { HasLearnt self.old.known actor known self.new.known }
    {
        match known {
            Known::Nothing => {}
            Known::Ended | Known::Wants(_) => self.known[actor as usize] = known,
        }
    }
}
