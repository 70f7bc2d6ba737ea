//! The law of the lines of notes, the contract of a function that does nothing.
ghost use Rattle.co_notes.specs.Laws.{NotesHaveOneSpelling};

/// A line is read as a note of a place exactly where it is the text of this note, and the note fits the place.
pub fn notes_have_one_spelling()
    ensures { NotesHaveOneSpelling }
{}
