//! What a text is of.

/// What a text is of, and how its steps come from it.
#[derive(Clone, Copy, Debug, PartialEq, Eq)]
pub enum Input {
    /// Steps, taken as they stand.
    Steps,
    /// Rows of cores that go side by side: the steps serve them. That they are those of `simulate_run` is tested.
    Rows,
    /// Rows that are served one after another, in the order of the text.
    SerialRows,
}
