//! What holds of generated scripts and of the counts of a run, each the contract of a function that does nothing.
ghost use Rattle.co_gen.specs.Laws.{FatesAddUp, GeneratedScriptsFit};

/// The script of every seed keeps all ranges and limits of a script.
pub fn generated_scripts_fit()
    ensures { GeneratedScriptsFit }
{}

/// Each accepted arming of legal histories is counted once: as fired, superseded, stopped or pending.
pub fn fates_add_up()
    ensures { FatesAddUp }
{}
