ghost use Rattle.vhdl_meaning.specs.Laws.{BenchesAreConfluent, MeaningGoesOn, RowsAreShown};
ghost use Rattle.vhdl_meaning.specs.Orders.{OrdersAreTold};
ghost use Rattle.vhdl_meaning.specs.RunLaws.{RunsFit};

/// The law of confluence: two lists of orders of its processes give a well-formed bench the same rows.
pub fn benches_are_confluent()
    ensures { BenchesAreConfluent }
{}

/// The law of one edge more: it adds a row to the meaning, with the values that were current before it.
pub fn meaning_goes_on()
    ensures { MeaningGoesOn }
{}

/// The law of shown transfers: each transfer in the rows of a well-formed bench has the widths of its stream, and signals that the stream
/// lacks at their defaults.
pub fn rows_are_shown()
    ensures { RowsAreShown }
{}

/// The law of orders: the test of `NotOrder` passes exactly the lists in which each process stands once, and no other number does.
pub fn orders_are_told()
    ensures { OrdersAreTold }
{}

/// The law of runs: the run of a text has a ready bit for each stream and cycle, and an order of the processes for each cycle, which `Sim`
/// can take.
pub fn runs_fit()
    ensures { RunsFit }
{}
