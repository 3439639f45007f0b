// The forms of lines with rows.

/// In which line a list of constraints stands.
#[derive(Clone, Copy, Debug, PartialEq, Eq)]
pub enum Form {
    /// A line of rows over the variables, such as `inv` and `safe`.
    Plain,
    /// A `flow` line: rows over the derivatives, where a name stands with or without `'`, and `still` may stand for the list.
    Flow,
    /// The line of a switch: rows over the old variables and then the new ones, which have a `'`.
    Jump,
}
