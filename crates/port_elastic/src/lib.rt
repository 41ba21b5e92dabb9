//! Ports that are driven through register slices and queues: a value and a plan make the transfers of each physical stream of a port, and a
//! net takes them through the stages of the stream to its sink. `elastic_port` gives the text of the trace at the sinks, and its length
//! before any row is written, as `specs/Elastic.antt` says it. `elastic_texts_are_driven` says that this text is the one that drives the
//! port without stages by a plan with other gaps, so all that holds of such texts holds of it. The crate stands on `port_drive`, on
//! `net_text`, which has the type of nets, on `elastic_net`, which makes the rows at the sinks, and on `steady_run`.
#![tactic(auto)]

mod chains;
mod elastic;
mod heads;
mod laws;
mod trace;

pub use elastic::elastic_port;
pub use laws::elastic_texts_are_driven;
pub use trace::ElasticTrace;
