//! The gate of the tests' calls: open, or one that forces an order of the acts of two clients and a CPU, and hears that each act is
//! announced once.
use co_hand::Gate;
use std::sync::atomic::{AtomicU64, Ordering};
use std::thread::yield_now;

/// How often an actor looks for another's act.
const LOOKS: u64 = 10_000_000;

/// How many acts each actor has announced. And whether an act was announced out of turn, or an actor gave up to wait.
#[derive(Drop)]
pub struct Turns {
    first_client: AtomicU64,
    second_client: AtomicU64,
    first_cpu: AtomicU64,
    second_cpu: AtomicU64,
    failed: AtomicU64,
}

// Whether a word is this number.
fn has(word: &AtomicU64, number: u64) -> bool {
    word.load(Ordering::SeqCst) == number
}

// Looks until so many acts are announced. False where they aren't after all looks.
fn are_announced(acts: &AtomicU64, wanted: u64) -> bool {
    for _ in 0..LOOKS {
        if acts.load(Ordering::SeqCst) >= wanted {
            return true;
        }
        yield_now();
    }
    false
}

impl Turns {
    /// Before the first act.
    pub(crate) fn new() -> Turns {
        Turns {
            first_client: AtomicU64::new(0),
            second_client: AtomicU64::new(0),
            first_cpu: AtomicU64::new(0),
            second_cpu: AtomicU64::new(0),
            failed: AtomicU64::new(0),
        }
    }

    // The acts that an actor has announced.
    fn acts_of(&self, actor: u32) -> Option<&AtomicU64> {
        match actor {
            0 => Some(&self.first_client),
            1 => Some(&self.second_client),
            2 => Some(&self.first_cpu),
            3 => Some(&self.second_cpu),
            _ => None,
        }
    }

    /// Both clients and the first CPU have announced two acts each, in turn, and nobody gave up.
    pub(crate) fn are_over(&self) -> bool {
        has(&self.first_client, 2)
            && has(&self.second_client, 2)
            && has(&self.first_cpu, 2)
            && has(&self.second_cpu, 0)
            && has(&self.failed, 0)
    }

    // The act is the actor's next.
    fn announce(&self, actor: u32, act: u64) -> bool {
        match self.acts_of(actor) {
            Some(acts) => acts.fetch_add(1, Ordering::SeqCst) == act,
            None => false,
        }
    }

    // The CPU begins behind the first client's second act, the second client behind the act of the CPU's function, which waits
    // for that client's second.
    fn wait(&self, actor: u32, act: u64) -> bool {
        match (actor, act) {
            (2, 0) => are_announced(&self.first_client, 2),
            (1, 0) => are_announced(&self.first_cpu, 2),
            (2, 1) => are_announced(&self.second_client, 2),
            _ => true,
        }
    }
}

/// The gate of a call, which keeps these turns, or is open. It is of one type, so the program is compiled for one gate.
#[derive(Drop)]
pub struct TurnGate<'a>(pub Option<&'a Turns>);

impl Gate for TurnGate<'_> {
    fn at(&self, actor: u32, act: u64) {
        let Some(turns) = self.0 else {
            return;
        };
        if !turns.announce(actor, act) || !turns.wait(actor, act) {
            turns.failed.store(1, Ordering::SeqCst);
        }
    }
}
