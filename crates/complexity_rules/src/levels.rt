ghost use Rattle.complexity_rules.specs.Levels.{RulesBindBelow, FirstNumbersBind, AtMostIsRaised, RulesBreakBelow, OffencesFall, ItemsStay, EndingStays};

/// Every level allows what each lower level allows, and the level changes nothing else. Only the first number of a level decides.
pub fn levels_are_kept()
    ensures bind { RulesBindBelow }
    ensures first_numbers { FirstNumbersBind }
    ensures raised { AtMostIsRaised }
    ensures rules { RulesBreakBelow }
    ensures offences { OffencesFall }
    ensures items { ItemsStay }
    ensures ending { EndingStays }
{}
