//! The report of a run: its text shows a script and the notes of its actors.
#![tactic(auto)]

pub mod laws;
mod line;
mod listening;
mod packed_lines;
mod reading;
mod section;
mod sections;
mod subject;
mod typed;

pub use co_print::{Order, Origin, note_from, order_of, print_by_threads, print_report};
pub use line::{Line, Report};
pub use listening::LineListener;
pub use packed_lines::PackedLines;
pub use reading::line_by_line::{Found, Next, OpenReport, Reader, open_report};
pub use reading::read_report;
pub use sections::Sections;
pub use subject::{SectionsOf, Subject};
