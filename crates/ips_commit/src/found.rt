//! What `pending` finds.

/// What a run that was stopped may have left.
#[derive(Drop)]
pub enum Pending {
    /// Nothing: no file or directory stands at the updater's own names.
    Nothing,
    /// The gate is closed, but the stage, the journal or a mark stands. `recover` takes them away.
    Leftover,
    /// Something stands at the gate: the steps of the journal are to be laid. `recover` does it.
    Open,
}
