//! Between whom a connection stands in a line.

/// Between whom a connection stands in a line, by the numbers of their desks.
#[derive(Clone, Copy)]
pub(crate) struct Links {
    /// Who stands before it, unless it is the first.
    pub(crate) before: Option<usize>,
    /// Who stands behind it, unless it is the last.
    pub(crate) behind: Option<usize>,
}
