//! What the end of a service did, and the notes of it.
ghost use Rattle.std.specs.Prelude.{◌≡◌};
ghost use Rattle.std.specs.declared.option.Option.TheVariants.{Some, None};
ghost use Rattle.co_desk.specs.Call.{notes_in};
ghost use Rattle.co_desk.specs.Ends.{finished_notes, end_told};

use crate::Made;
use crate::running::{free, run_note};
use crate::told::{Inserted, insertion_note, turn_note};
use co_object::{QReply, Reply, RunOp};
use co_wheel::EndOut;

/// What the end of a service did, in few words: the reply, and where its entries stand. Its notes are made of this where they are
/// wanted.
#[derive(Drop)]
pub struct Finished {
    /// What the wheel answered.
    pub(crate) out: EndOut,
    /// Whether it was a service of the CPU's interrupt.
    pub(crate) direct: bool,
    pub(crate) cpu: u32,
    /// The callout, and the number of the arming that was served.
    pub(crate) i: u32,
    pub(crate) n: u64,
    /// Where the End stands in the callout's history.
    pub(crate) entry: u64,
    /// Where the Free stands in the CPU's journal.
    pub(crate) freed: u64,
    /// The Insert of an arming that waited for this end at another CPU.
    pub(crate) insertion: Option<Inserted>,
}

impl Finished {
    /// A place for what an end did, before any.
    #[inline(always)]
    pub fn none() -> Finished {
        Finished {
            out: EndOut::none(),
            direct: false,
            cpu: 0,
            i: 0,
            n: 0,
            entry: 0,
            freed: 0,
            insertion: None,
        }
    }

    /// The callout's reply.
    #[inline(always)]
    pub fn reply(&self) -> Reply
        ensures { result ≡ self.now.out.reply }
    {
        self.out.reply
    }

    /// What the end of the service of callout `i`'s arming `n` did on its desk, beside what the wheel answered.
    #[inline(always)]
    pub(crate) fn tell(&mut self, direct: bool, cpu: u32, i: u32, n: u64, entry: u64, freed: u64)
        ensures { self.new ≡ end_told direct cpu i n self.old.out entry freed }
    {
        self.direct = direct;
        self.cpu = cpu;
        self.i = i;
        self.n = n;
        self.entry = entry;
        self.freed = freed;
        self.insertion = None;
    }

    /// The callout that left has landed: its Insert is told too.
    #[inline(always)]
    pub fn tell_insert(&mut self, inserted: Inserted)
        ensures { self.new ≡ record self.old { insertion = Some inserted } }
    {
        self.insertion = Some(inserted);
    }

    /// The answer of an end by actor `actor` in its act `act`, note after note: the End, the Free, and an Insert where the callout landed
    /// elsewhere.
    #[inline(always)]
    pub fn answer(&self, actor: u32, act: u64) -> Made
        ensures reply { result.reply ≡ self.now.out.reply }
        ensures notes { notes_in result.notes ≡ finished_notes actor act self.now }
    {
        let op = RunOp::End {
            n: self.n,
            cpu: self.cpu,
        };
        let ends = run_note(actor, act, self.i, &op, &self.out.reply, self.entry);
        let frees = turn_note(
            actor,
            act,
            self.cpu,
            free(self.direct),
            QReply::Freed,
            self.freed,
        );
        let insertion = insertion_note(actor, act, self.i, &self.insertion);
        Made {
            reply: self.out.reply,
            notes: [Some(ends), Some(frees), insertion],
        }
    }
}
