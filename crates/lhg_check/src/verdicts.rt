// What a check answers.

use lhg_plant::State;

/// Whether a controller is valid, and else the first part of validity that fails, with a state that breaks it.
#[derive(Drop)]
pub enum Verdict {
    /// All three parts hold.
    Valid,
    /// A state of the region is not safe.
    Unsafe(State),
    /// A state of the guard of a switch, by its place in the plant's list, is not in the region or does not stay there by the switch.
    BadGuard { switch: u32, state: State },
    /// A state of the region has an escape from it past the guards.
    Escapes(State),
}
