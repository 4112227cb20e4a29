// Why a list is refused.

/// Why a list of spans or of points is refused.
#[derive(Clone, Copy, Debug, PartialEq, Eq)]
pub enum ListRefused {
    /// The list breaks its rule. `place`, counted from 0, is that of the first item that breaks it,
    /// with the item before it or by itself.
    NotNormal { place: usize },
    /// Memory ran out. No clause ties this answer to a refused growth.
    OutOfMemory,
}
