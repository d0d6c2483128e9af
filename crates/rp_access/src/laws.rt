//! Laws of levels. Each function is a law over the definitions: its contract is the law, and its body is empty.
ghost use Rattle.rp_access.specs.Laws.{ChainIsComputed, LevelsAreComputed, LevelsAreOne, LevelsPassTests, PassingLevelsAreLevels, RouteIsOne};

/// States that a list of levels that passes the four tests is the list of levels, and that no chain is shorter than its
/// level.
pub fn passing_levels_are_levels()
    ensures { PassingLevelsAreLevels }
{}

/// States that, if links go both ways, the list of levels passes the four tests.
pub fn levels_pass_tests()
    ensures { LevelsPassTests }
{}

/// States that there is only one list of levels.
pub fn levels_are_one()
    ensures { LevelsAreOne }
{}

/// States that only one chain is the chosen one.
pub fn route_is_one()
    ensures { RouteIsOne }
{}

/// States that, if pairs link the same numbers, the list of levels is the one that is computed from the pairs.
pub fn levels_are_computed()
    ensures { LevelsAreComputed }
{}

/// States that, if pairs link the same numbers, the chosen chain is the one that is computed from the pairs.
pub fn chain_is_computed()
    ensures { ChainIsComputed }
{}
