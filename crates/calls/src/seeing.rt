//! A law of the calls that only read.

ghost use Rattle.calls.specs.Seeing.{ReadingForgets};

/// Calls by a path that only read see neither open files nor those that have no name. It does
/// nothing.
pub fn reading_forgets_open_files()
    ensures { ReadingForgets }
{}
