//! The text of a section while notes are told, in pieces.
ghost use Rattle.std.specs.Prelude.{◌≡◌, ◌++◌, OnOk, IfOk};
ghost use Rattle.std.specs.List.{concat};
ghost use Rattle.co_text.specs.Lines.{line_text};
ghost use Rattle.co_notes.specs.NoteTexts.{note_words};

use co_notes::print_note;
use co_object::AnyEntry;
use co_program::Script;
use co_sbt::{NoMemory, Seq};
use co_text::Page;
use std::alloc::Global;
use std::marker::Model;

/// With so many bytes the first piece is full.
const FIRST: usize = 3 * 1024;

/// With so many bytes a piece is full in any case.
const MOST: usize = 63 * 1024;

/// How many bytes more there may be when a full piece is met: the last that the page had kept back, and a line.
const OVER: usize = 1024;

/// A text that grows at its end by lines of notes. What was written is never moved: a piece that is full stays as it is, and
/// the next one has room for twice as much, up to 64 KiB. Contracts see its bytes.
#[derive(Drop)]
pub struct Section {
    alloc: Global,
    full: Seq<Seq<u8>>,
    page: Page,
    /// With so many bytes the page is full.
    most: usize,
}

impl Model for Section {
    ghost use Rattle.std.specs.Prelude.{List, ℕ, ◌++◌};
    ghost use Rattle.std.specs.List.{concat};

    ghost Value = { List ℕ };

    ghost view = { λ x. concat x.full ++ x.page };
}

impl Section {
    /// The section that begins with this text.
    pub fn new(alloc: Global, page: Page) -> Section
        ensures { result ≡ page }
    {
        Section {
            alloc,
            full: Seq::new(alloc),
            page,
            most: FIRST,
        }
    }

    /// What is written so far is a piece of its own.
    // Apart, since it is rare: the usual way of a note stays short.
    #[inline(never)]
    fn fill(&mut self) -> Result<(), NoMemory>
        ensures { OnOk result (self.new ≡ self.old) }
    {
        let most = if self.most < MOST / 2 {
            2 * self.most
        } else {
            MOST
        };
        self.most = most;
        let piece = self.page.take(self.alloc, most + OVER)?;
        self.full.push(piece)
    }

    /// Appends the line of a note. `NoMemory` where there is no room.
    #[inline(always)]
    pub fn write(&mut self, script: &Script, number: u64, entry: &AnyEntry) -> Result<(), NoMemory>
        ensures { OnOk result (self.new ≡ self.old ++ line_text (note_words script.now number entry.now)) }
    {
        print_note(&mut self.page, script, number, entry)?;
        if self.page.stored() < self.most {
            return Ok(());
        }
        self.fill()
    }

    /// The text in pieces. `NoMemory` where there is no room for the last one.
    pub fn pieces(self) -> Result<Seq<Seq<u8>>, NoMemory>
        ensures { IfOk result (λ pieces. concat pieces ≡ self) }
    {
        let Section { mut full, page, .. } = self;
        full.push(page.done()?)?;
        Ok(full)
    }
}
