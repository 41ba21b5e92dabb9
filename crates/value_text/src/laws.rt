//! The laws of values and their texts.

ghost use Rattle.value_text.specs.Laws.{PortSplitsAreNamed, ReadSeriesFit, ReadValuesFit, ValuesAreReadAsPrinted, ValuesAreReadOnce};

/// The value that tokens are for a split, or a text is, fits that split, whichever it is: it has a series for each root, and each
/// member of a series is a nest of the root's effective dimensionality, whose leaves are values of its elements. So such a value
/// passes `fits`.
pub fn values_that_are_read_fit()
    ensures tokens { ReadSeriesFit }
    ensures texts { ReadValuesFit }
{}

/// The canonical text of a value that fits a split is read as that value, whatever the user words, which are comments: so `read` gives the
/// value that `print` was given, if it has at most 1,000,000 leaves nested at most 2,200 deep. The nodes and streams of the split have
/// names, as those of each port's type have. A text is one value at most, and `read` refuses none that is one.
pub fn values_are_read_as_printed()
    ensures printed { ValuesAreReadAsPrinted }
    ensures named { PortSplitsAreNamed }
    ensures once { ValuesAreReadOnce }
{}
