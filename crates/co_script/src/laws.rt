//! The laws of scripts and their texts, each the contract of a function that does nothing.
ghost use Rattle.co_script.specs.Laws.{CanonicalTextReadsBack, FitsExactly, ReadScriptsFit, FittingScriptsAreAccepted};

/// The canonical text of a script that fits is read, and as this very script.
pub fn canonical_text_reads_back()
    ensures { CanonicalTextReadsBack }
{}

/// A script fits where some text stands for it, and nowhere else.
pub fn fits_exactly()
    ensures { FitsExactly }
{}

/// The script that a text stands for keeps all ranges and limits.
pub fn read_scripts_fit()
    ensures { ReadScriptsFit }
{}

/// A script that fits has all that the service needs of one.
pub fn fitting_scripts_are_accepted()
    ensures { FittingScriptsAreAccepted }
{}
