// What the words can ask for.

/// What the words ask for.
#[derive(Clone, Copy, Debug, PartialEq, Eq)]
pub enum Request {
    /// A controller for the plant of the input, within so many rounds.
    Synth(u32),
    /// Whether the controller of the input is valid for its plant.
    Check,
    /// The run of the controller of the input over its log.
    Run,
    /// What becomes of the state of the input, within so many rounds.
    Explain(u32),
    /// The controller of the input, in the latest version of its text.
    Migrate,
    /// A controller for the plant of the input that switches at the rim of its region alone, where such a one is valid, within so many
    /// rounds.
    Lazy(u32),
    /// How the plant wins from the state of the input against the moves of the controller there, within so many rounds.
    Spoil(u32),
    /// Where the plant of the input can get from its first states, within so many rounds.
    Reach(u32),
    /// A summary of the generated plant with so many locations.
    Gen(u32),
}
