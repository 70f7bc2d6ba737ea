//! A script from standard input.
ghost use Rattle.std.specs.Prelude.{IfOk};
ghost use Rattle.co_program.specs.Scripts.{IsScript};

use crate::failed::Failed;
use co_io::{ReadEnd, Source, read_all};
use co_program::Script;
use co_script::read_script;
use co_text::ScriptFault;
use std::alloc::Global;

/// The most bytes of a script.
const LIMIT: usize = 67_108_864;

/// Reads a script.
pub fn read<S: Source>(alloc: Global, source: &mut S) -> Result<Script, Failed>
    ensures { IfOk result (λ script. IsScript script) }
{
    let input = match read_all(alloc, source, LIMIT) {
        Ok(input) => input,
        Err(ReadEnd::NoMemory) => return Err(Failed::NoMemory),
        Err(ReadEnd::Fault) => return Err(Failed::Input),
    };
    match read_script(alloc, input.bytes.as_slice()) {
        Ok(script) => Ok(script),
        Err(ScriptFault::NoMemory) => Err(Failed::NoMemory),
        Err(ScriptFault::Bad { .. }) => Err(Failed::Script),
    }
}
