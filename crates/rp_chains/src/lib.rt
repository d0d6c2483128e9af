#![tactic(auto)]
//! Laws of chains and levels, for any relation between numbers. There is at most one list of levels and one chosen
//! chain, and those computed from links are these. Each function is a law over the definitions of `rp_geometry`: its
//! contract is the law, and its body is empty.

ghost use Rattle.rp_geometry.specs.laws.ChainLaws.{ChainIsFound, ChainIsOneAlong, LevelsAreFound, LevelsAreOneAlong};

/// States that there is only one list of levels.
pub fn levels_are_one()
    ensures { LevelsAreOneAlong }
{}

/// States that there is at most one chosen chain.
pub fn chain_is_one()
    ensures { ChainIsOneAlong }
{}

/// States that the levels computed from links are the levels.
pub fn levels_are_found()
    ensures { LevelsAreFound }
{}

/// States that the chain computed from links is the chosen one.
pub fn chain_is_found()
    ensures { ChainIsFound }
{}
