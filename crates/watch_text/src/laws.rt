//! The laws of the text of a monitor.

ghost use Rattle.watch_text.specs.Lengths.{TablesAreShorterThanTheirText};

/// The law of tables: each list of items that a monitor expects has fewer items than its text has bytes.
pub fn tables_are_shorter_than_their_text()
    ensures { TablesAreShorterThanTheirText }
{}
