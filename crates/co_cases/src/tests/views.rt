//! Views of worked reports, as `docs/VIEW.md` shows and tells them, in memory.
mod calls;
mod ends;
mod pictures;
mod reports;
mod statuses;
mod texts;
