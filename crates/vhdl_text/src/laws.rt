ghost use Rattle.vhdl_text.specs.Reading.{BenchesAreReadAsPrinted, BenchesArePrintedAsRead};

/// The law of bench texts: the text of a well-formed bench is read as that bench, and no other text is. A bench that is read is well
/// formed.
pub fn benches_are_read_as_printed()
    ensures spelled { BenchesAreReadAsPrinted }
    ensures read { BenchesArePrintedAsRead }
{}
