//! Elastic chains: a `Chain` takes the transfers of a feed through register slices and queues to a sink, whose components act in any
//! order; an `ElasticRun` does so for the streams of a port, row by row. `specs/States.antt` says what a component does, and
//! `specs/Sinks.antt` which cycles a sink has; `chains_keep_their_laws` has the laws of them all. The crate stands on `handshake`, which
//! has the feeds, on `complexity_rules`, which says where a stream may pause, and on `steady_run`, which says what follows from steady
//! cycles.
#![tactic(auto)]

mod acting;
mod chain;
mod elastic_feed;
mod elastic_run;
mod laws;
mod making;
mod ordering;
mod running;
mod sending;
mod stepping;
mod turn;

pub use chain::Chain;
pub use elastic_run::ElasticRun;
pub use laws::chains_keep_their_laws;
