//! The top call.
ghost use Rattle.std.specs.Prelude.{◌≡◌, ℕ, List, IfOk, MatchResult, Ok, Some, map, string_bytes};
ghost use Rattle.std.specs.List.{concat};
ghost use Rattle.co_check.specs.Lines.{IsReport};
ghost use Rattle.co_view_top.specs.declared.status.Status.TheVariants.{NoOrder, Usage, WriteFault, BadReport};
ghost use Rattle.co_front.specs.Outside.{Output, outside, Tells};
ghost use Rattle.co_front.specs.Texts.{cause_word, fault_text};
ghost use Rattle.co_view_top.specs.Texts.{usage_text};
ghost use Rattle.co_report.specs.Reading.{report_read};
ghost use Rattle.co_view_top.specs.Headline.{Gives, IsHeadline, Says};
ghost use Rattle.co_view_top.specs.Views.{view_text};

use crate::status::Status;
use crate::texts::usage_text;
use crate::views::{View, view_of};
use co_check::laws::read_reports_may_be_checked;
use co_front::{cause_word, fault_text};
use co_io::{ReadEnd, Sink, Source, WriteEnd, read_all, write_all, write_pieces};
use co_report::{Report, read_report};
use co_sbt::{NoMemory, Seq};
use co_text::ScriptFault;
use co_view::{Ordered, order_of, print_lanes, print_picture, print_summary};
use std::alloc::Global;

/// The status that a view comes to, and the text for it, in pieces.
#[derive(Drop)]
struct Answer {
    status: Status,
    pieces: Seq<Seq<u8>>,
}

/// The most bytes of a report, 256 MiB.
const LIMIT: usize = 268_435_456;

/// An answer of one line that names a line and a cause.
fn faulty(alloc: Global, status: Status, line: u64, cause: &[u8]) -> Result<Answer, NoMemory>
    ensures status { IfOk result (λ answer. answer.status ≡ status) }
    ensures text { IfOk result (λ answer. concat answer.pieces ≡ fault_text line cause.now) }
{
    let text = fault_text(alloc, line, cause)?;
    Ok(Answer {
        status,
        pieces: whole(alloc, text)?,
    })
}

/// A text in one piece.
fn whole(alloc: Global, text: Seq<u8>) -> Result<Seq<Seq<u8>>, NoMemory>
    ensures { IfOk result (λ pieces. concat pieces ≡ text) }
{
    let mut pieces = Seq::new(alloc);
    pieces.push(text)?;
    Ok(pieces)
}

/// The text of a view, in pieces.
fn text_of(
    alloc: Global,
    view: View,
    report: &Report,
    order: &[usize],
) -> Result<Seq<Seq<u8>>, NoMemory>
    requires { IsReport report.now }
    ensures { IfOk result (λ pieces. concat pieces ≡ view_text view report.now order.now) }
{
    match view {
        View::Lanes(focus) => print_lanes(alloc, focus, report, order),
        View::Summary => whole(alloc, print_summary(alloc, report)?),
        View::Picture(picture) => print_picture(alloc, picture, report, order),
    }
}

/// The answer of a view of a report.
fn shown(alloc: Global, view: View, report: &Report) -> Result<Answer, NoMemory>
    requires { IsReport report.now }
    ensures { IfOk result (λ answer. (bytes : List ℕ) → report_read bytes ≡ Ok report.now → Gives view bytes answer.status (concat answer.pieces)) }
{
    match order_of(alloc, report)? {
        Ordered::Whole(order) => Ok(Answer {
            status: Status::Done,
            pieces: text_of(alloc, view, report, order.as_slice())?,
        }),
        Ordered::Stuck { line } => faulty(alloc, Status::NoOrder, line, b"order".as_slice()),
    }
}

/// What a view makes of these bytes.
fn answer_to(alloc: Global, view: View, bytes: &[u8]) -> Result<Answer, NoMemory>
    ensures { IfOk result (λ answer. Gives view bytes.now answer.status (concat answer.pieces)) }
{
    match read_report(alloc, bytes) {
        Ok(report) => {
            read_reports_may_be_checked();
            shown(alloc, view, &report)
        }
        Err(ScriptFault::Bad { line, cause }) => {
            faulty(alloc, Status::BadReport, line, cause_word(cause))
        }
        Err(ScriptFault::NoMemory) => Err(NoMemory {}),
    }
}

/// The status of a text that was written to its end, or else WriteFault.
fn told(status: Status, end: Result<(), WriteEnd>) -> Status
    ensures { MatchResult end (λ _. result ≡ status) (λ _. result ≡ WriteFault) }
{
    match end {
        Ok(()) => status,
        Err(_) => Status::WriteFault,
    }
}

/// Writes the usage line.
fn write_usage<K: Sink>(sink: &mut K) -> Status
    ensures { let before : Output = record { held = K.held sink.old; room = K.room sink.old; faults = K.faults sink.old; idle = K.idle sink.old } in
        let after : Output = record { held = K.held sink.new; room = K.room sink.new; faults = K.faults sink.new; idle = K.idle sink.new } in
        Tells WriteFault Usage usage_text before after result }
{
    told(Status::Usage, write_all(sink, usage_text()))
}

/// Writes an answer, piece by piece.
fn write_answer<K: Sink>(sink: &mut K, answer: &Answer) -> Status
    ensures { let before : Output = record { held = K.held sink.old; room = K.room sink.old; faults = K.faults sink.old; idle = K.idle sink.old } in
        let after : Output = record { held = K.held sink.new; room = K.room sink.new; faults = K.faults sink.new; idle = K.idle sink.new } in
        Tells WriteFault answer.now.status (concat answer.now.pieces) before after result }
{
    told(answer.status, write_pieces(sink, answer.pieces.as_slice()))
}

/// A view, from the source to the sink.
fn read_and_show<S: Source, K: Sink>(
    alloc: Global,
    view: View,
    source: &mut S,
    sink: &mut K,
) -> Status
    ensures { let before = outside (S.left source.old) (S.faults source.old) (K.held sink.old) (K.room sink.old) (K.faults sink.old) (K.idle sink.old) in
        let after = outside (S.left source.new) (S.faults source.new) (K.held sink.new) (K.room sink.new) (K.faults sink.new) (K.idle sink.new) in
        Says before after (Some view) result }
{
    let input = match read_all(alloc, source, LIMIT) {
        Ok(input) => input,
        Err(ReadEnd::NoMemory) => return Status::NoMemory,
        Err(ReadEnd::Fault) => return Status::ReadFault,
    };
    match answer_to(alloc, view, input.bytes.as_slice()) {
        Ok(answer) => write_answer(sink, &answer),
        Err(_) => Status::NoMemory,
    }
}

/// Shows the report that a source has, as the words say, and tells how it ended, by the statuses of `callout`. It returns. Our own
/// decision, the words and the texts too.
///
/// Usage comes exactly where the words are no view. BadReport comes exactly where `read_report` refuses the bytes, with its line
/// and its cause, and NoOrder where the report has no order of its notes that keeps each actor's numbers and each place's
/// positions: it names the first line whose note is left where nothing more may come. Nothing is written before the whole text is
/// made. NoMemory may come at any view, and then nothing was written. WriteFault comes only where a write failed, or took nothing
/// and the sink had told too little room for the text, if any.
pub fn view_main<S: Source, K: Sink>(
    alloc: Global,
    words: &[String],
    source: &mut S,
    sink: &mut K,
) -> Status
    ensures { let before = outside (S.left source.old) (S.faults source.old) (K.held sink.old) (K.room sink.old) (K.faults sink.old) (K.idle sink.old) in
        let after = outside (S.left source.new) (S.faults source.new) (K.held sink.new) (K.room sink.new) (K.faults sink.new) (K.idle sink.new) in
        IsHeadline (map string_bytes words.now) before after result }
{
    match view_of(words) {
        Some(view) => read_and_show(alloc, view, source, sink),
        None => write_usage(sink),
    }
}
