// The quantities that a run bounds.

/// A quantity that may exceed its limit.
#[derive(Clone, Copy, Debug, PartialEq, Eq)]
pub enum Limit {
    /// Bytes of the description.
    Description,
    /// Bytes of one script or report.
    Script,
    /// Bytes of all inputs.
    Inputs,
    /// Ground fluents and ground derived events.
    Units,
    /// Ground input events.
    Events,
    /// Assignments of variables, over all statements.
    Assignments,
    /// Instances of rules and of `holdsFor` statements.
    Rules,
    /// Conditions and leaves of these instances.
    Conditions,
    /// Rows times queries.
    Cells,
    /// Records of all scripts.
    Commands,
    /// Seals of all scripts.
    Seals,
    /// Feed commands times the windows that one event may lie in.
    Occurrences,
    /// Rows times the value points of a window.
    Points,
}
