use crate::surveying::counts::{Counts, SurveyFault};
use physical_stream::Header;

/// The header of a trace text that was read, and what a survey of its rows finds.
#[derive(Debug, Drop)]
pub struct Surveyed {
    pub header: Header,
    pub found: Result<Counts, SurveyFault>,
}
