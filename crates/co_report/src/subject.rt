//! Sections by the script that they are of: whoever tells notes to a listener knows the listener by its type alone.
ghost use Rattle.std.specs.Prelude.{◌≡◌, [], List, IfOk};
ghost use Rattle.std.specs.List.{concat};
ghost use Rattle.co_listener.specs.MadeNotes.{MadeNote, IsInOrder, lists_by};
ghost use Rattle.co_program.specs.Actors.{actor_count};
ghost use Rattle.co_program.specs.Scripts.{IsScript};
ghost use Rattle.co_print.specs.Reports.{report_of};
ghost use Rattle.co_report.specs.Sections.{IsToldOf};

use crate::sections::Sections;
use co_listener::Listener;
use co_object::Note;
use co_program::Script;
use co_sbt::{NoMemory, Seq};
use std::alloc::Global;
use std::marker::{Brand, PhantomData};

/// The script that a report is of. It has no functions. Whoever begins a report picks it, for a type such as std's `Brand`.
pub trait Subject {
    ghost use Rattle.co_program.specs.declared.script.Script.{Script};

    ghost script: { Script };
}

impl Subject for Brand {
    ghost use Rattle.co_report.specs.Sections.{no_script};

    ghost script = { no_script };
}

/// The sections of the report of a type's script.
#[derive(Drop)]
pub struct SectionsOf<'a, S: Subject> {
    sections: Sections<'a>,
    of: PhantomData<S>,
}

impl<'a, S: Subject> SectionsOf<'a, S> {
    /// The sections before the first note. `NoMemory` where there is no room for their headings.
    pub fn new(alloc: Global, script: &'a Script) -> Result<SectionsOf<'a, S>, NoMemory>
        requires sound { IsScript script.now }
        requires subject { script.now ≡ S.script }
        ensures { IfOk result (λ x. IsToldOf S.script x.sections []) }
    {
        let sections = Sections::new(alloc, script)?;
        Ok(SectionsOf {
            sections,
            of: PhantomData,
        })
    }

    /// The whole report in pieces, where the notes of each place were told in the order of their positions. Joined
    /// they are the report. `NoMemory` where there is no room for the pieces.
    pub fn pieces(self, alloc: Global) -> Result<Seq<Seq<u8>>, NoMemory>
        ensures { IfOk result (λ pieces. (made : List MadeNote) → IsToldOf S.script self.entry.sections made → IsInOrder made → concat pieces ≡ report_of S.script (lists_by (actor_count S.script) made)) }
    {
        self.sections.pieces(alloc)
    }
}

impl<'a, S: Subject> Listener for SectionsOf<'a, S> {
    ghost use Rattle.co_program.specs.Actors.{actor_count};
    ghost use Rattle.co_report.specs.Sections.{IsToldOf};

    ghost actors = { λ x. actor_count x.sections.script };

    ghost has = { λ x made. IsToldOf S.script x.sections made };

    ghost room = { λ x. 0 };

    fn write(&mut self, actor: u32, note: &Note) -> Result<(), NoMemory> {
        self.sections.write(actor, note)
    }
}
