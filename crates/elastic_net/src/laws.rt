//! The laws of all elastic chains.

ghost use Rattle.elastic_net.specs.Laws.{ActsKeepSound, NoStagesAreRuns, OrdersAreSteps, RowsAreCycles, SinksAreReady, SinksAreSteady, SinksDeliver, SinksFinish};

/// The laws of elastic chains, under every list of orders and of ready bits. After every act the transfers at the sink are a front of
/// those that were sent, these are a front of all, and no stage holds more than its capacity. A step of each component, in any order
/// of all of them, is a cycle. A chain without stages is the run of its source. The cycles at the sink are steady, have its ready
/// bits and do the transfers that are at it. No transfer is left where the ready bits have as many ones as there are moves of all
/// components and cycles of effective gaps.
pub fn chains_keep_their_laws()
    ensures sound { ActsKeepSound }
    ensures steps { OrdersAreSteps }
    ensures run { NoStagesAreRuns }
    ensures deliver { SinksDeliver }
    ensures steady { SinksAreSteady }
    ensures ready { SinksAreReady }
    ensures rows { RowsAreCycles }
    ensures finish { SinksFinish }
{}
