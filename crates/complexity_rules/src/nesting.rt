ghost use Rattle.complexity_rules.specs.Nesting.{ItemsAreNested};

/// The items done in cycles without a violation of the rule on nesting are nested.
pub fn items_are_nested()
    ensures { ItemsAreNested }
{}
