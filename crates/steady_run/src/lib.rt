//! Steady cycles: the cycles of a stream that shows transfers in their order and holds each until it is taken, for whatever reason it
//! shows one late. `specs/Steady.antt` says which cycles these are. `steady_cycles_keep_their_laws` says that they are a run under some
//! gaps, where the stream may pause anywhere, and so break no rule. The crate has laws alone. It stands on `handshake`, which has the
//! runs, and on `scheduler`, which plans the transfers.
#![tactic(auto)]

mod laws;

pub use laws::steady_cycles_keep_their_laws;
