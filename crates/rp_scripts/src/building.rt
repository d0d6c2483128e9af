//! What a script is made of.
ghost use Rattle.std.specs.Prelude.{◌≤◌};

/// A building of so many storeys, at most 1,000, that is drawn from a seed.
#[derive(Clone, Copy, Debug, PartialEq, Eq)]
pub struct Building {
    /// How many storeys it has.
    pub storeys: u32,
    /// The seed of the numbers that are drawn.
    pub seed: u64,
    ghost few: { storeys ≤ 1000 },
}
