//! Texts in pieces, so that a long one need not stand in one stretch of memory.
ghost use Rattle.std.specs.Prelude.{◌≡◌, [], OnOk, IfOk};
ghost use Rattle.std.specs.List.{concat};
ghost use Rattle.co_view.specs.Rolls.{roll_text};

use co_sbt::{NoMemory, Seq};
use co_text::Page;
use std::alloc::Global;

/// The pieces of a text that are done, and the page that is being written.
#[derive(Drop)]
pub(crate) struct Roll {
    pub(crate) pieces: Seq<Seq<u8>>,
    pub(crate) page: Page,
    /// How many rows the page has.
    pub(crate) rows: u32,
}

/// The number of rows of a piece.
const ROWS: u32 = 16384;

impl Roll {
    /// The empty text.
    pub(crate) fn new(alloc: Global) -> Roll
        ensures { roll_text result ≡ [] }
    {
        Roll {
            pieces: Seq::new(alloc),
            page: Page::new(alloc),
            rows: 0,
        }
    }

    /// Makes the page a piece.
    fn close(&mut self, alloc: Global) -> Result<(), NoMemory>
        ensures text { OnOk result (roll_text self.new ≡ roll_text self.old) }
        ensures page { OnOk result (self.new.page ≡ []) }
    {
        let page = std::mem::replace(&mut self.page, Page::new(alloc));
        self.rows = 0;
        self.pieces.push(page.done()?)
    }

    /// Begins a row, on another page where this one is full.
    pub(crate) fn row(&mut self, alloc: Global) -> Result<(), NoMemory>
        ensures { OnOk result (roll_text self.new ≡ roll_text self.old) }
    {
        if self.rows >= ROWS {
            return self.close(alloc);
        }
        self.rows += 1;
        Ok(())
    }

    /// The text, which is done. The roll is of no more use.
    pub(crate) fn done(&mut self, alloc: Global) -> Result<Seq<Seq<u8>>, NoMemory>
        ensures { IfOk result (λ pieces. concat pieces ≡ roll_text self.old) }
    {
        self.close(alloc)?;
        Ok(std::mem::replace(&mut self.pieces, Seq::new(alloc)))
    }
}
