//! The laws of the check, of differences, of chains, and of traces that are carried.

ghost use Rattle.link_check.specs.CarryLaws.{
  CarriedEndingsStay,
  CarriedStreamsRise,
  CarriedStreamsStay,
  CarriedTracesStand,
  CarriedTracesStayLegal,
  ChainsKeepTypes,
  CompatibleIsTransitive,
  CompatiblePortsRise,
};
ghost use Rattle.link_check.specs.Laws.{
  AnswersAreOfTheProject,
  ChainsEnd,
  ChainsEndInOneSink,
  ChainsMeetNoPortTwice,
  NoDifferenceIsCompatible,
  SizesAreCountedWhole,
  TextOrderIsOne,
};

/// The law of the check: its answer is a function of the project. The implementations have one text order, the count of instances misses
/// none, and the answer is never want of memory.
pub fn projects_have_one_answer()
    ensures order { TextOrderIsOne }
    ensures size { SizesAreCountedWhole }
    ensures answer { AnswersAreOfTheProject }
{}

/// The law of differences: two types have none exactly where they are compatible.
pub fn types_without_difference_are_compatible()
    ensures { NoDifferenceIsCompatible }
{}

/// The law of chains: the nets of a project lead from each leaf source to a leaf sink, to one only, and to no port twice.
pub fn chains_end_in_one_sink()
    ensures some { ChainsEnd }
    ensures one { ChainsEndInOneSink }
    ensures once { ChainsMeetNoPortTwice }
{}

/// The laws of carrying: a trace arrives as a trace, with the same cycles, items and endings, and without an offence where it had none.
pub fn carried_traces_keep_their_laws()
    ensures stand { CarriedTracesStand }
    ensures streams { CarriedStreamsStay }
    ensures rise { CarriedStreamsRise }
    ensures legal { CarriedTracesStayLegal }
    ensures endings { CarriedEndingsStay }
{}

/// The law of carried ports: the ports at the ends of a chain have compatible types, and the streams of such ports are alike at both
/// ends, and none arrives at a lower level than it comes from.
pub fn compatible_ports_carry()
    ensures chains { ChainsKeepTypes }
    ensures transitive { CompatibleIsTransitive }
    ensures ports { CompatiblePortsRise }
{}
