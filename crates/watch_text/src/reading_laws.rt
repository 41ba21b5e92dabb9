ghost use Rattle.watch_text.specs.Reading.{MonitorsAreReadAsPrinted, MonitorsArePrintedAsRead};

/// The law of monitors' texts: the text of a well-formed monitor is read as that monitor, and no other text is. A monitor that is read is
/// well formed.
pub fn monitors_are_read_as_printed()
    ensures spelled { MonitorsAreReadAsPrinted }
    ensures read { MonitorsArePrintedAsRead }
{}
