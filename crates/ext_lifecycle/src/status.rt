//! How a node ended.

/// How a node ended.
///
/// Source: Javadoc type `TestExecutionResult.Status` for the first three; `Skipped` beside them is
/// an own rule.
#[derive(Clone, Copy, Debug, PartialEq, Eq)]
pub enum Status {
    /// No call of the node failed or aborted, and no close failed. Printed as `successful`.
    Successful,
    /// A call aborted, and no call or close failed. Printed as `aborted`.
    Aborted,
    /// A call or a close failed. Printed as `failed`.
    Failed,
    /// An ancestor skipped its body, so that nothing of the node ran. Printed as `skipped`.
    Skipped,
}
