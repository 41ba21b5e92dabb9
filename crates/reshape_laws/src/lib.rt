//! The laws of reshaping: what holds of each run that the definitions of `reshape` make. `reshaping_keeps_its_laws` says that the far side
//! is steady for the transfers that are planned there, whatever the source still sends. So it breaks no rule, and ends whole with the
//! items of the source. The crate has laws alone. It stands on `reshape`, which has the run, and on `steady_run`.
#![tactic(auto)]

mod laws;

pub use laws::reshaping_keeps_its_laws;
