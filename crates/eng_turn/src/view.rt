//! What lies in the slot, and what a pass knows.
use std::snapshot::Snapshot;

/// The value at rest in the slot, beside the ticket with which it was left. At the opening no pass has left it.
#[derive(Drop)]
pub struct Resting<V, T> {
    pub value: V,
    pub ticket: Option<Snapshot<T>>,
}

/// Whether a pass is between the two steps of a split or of a join.
pub enum Change {
    Settled,
    Splitting,
    Joining,
}

/// Whether a pass has the value, and which value it had as the pass entered.
pub enum Stage<V> {
    Outside,
    Inside(V),
}

/// What a pass knows. It exists in proofs alone: no value of it is made.
pub struct PassView<V, T> {
    pub ticket: T,
    pub opening: Option<V>,
    pub mark: Option<V>,
    pub share: u64,
    pub change: Change,
    pub stage: Stage<V>,
}
