//! The word of an actor.
ghost use Rattle.std.specs.Prelude.{◌≡◌, ◌∷◌, decimal};
ghost use Rattle.co_grammar.specs.Spelling.{actor_word};

use co_program::{Role, Script, role_of};

/// The letter and the number of an actor's word, as `c` and 0: of a client, a CPU, or an interrupt.
pub fn actor_name(script: &Script, actor: u32) -> (u8, u64)
    ensures { result.0 ∷ decimal result.1 ≡ actor_word script.now actor }
{
    match role_of(script, actor) {
        Role::Client(client) => (b'c', u64::from(client)),
        Role::Cpu(cpu) => (b'p', u64::from(cpu)),
        Role::Interrupt(cpu) => (b'h', u64::from(cpu)),
    }
}
