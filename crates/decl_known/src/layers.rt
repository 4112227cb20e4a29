// The layers of names, as data.
use rt_base::List;

/// The layer of each name.
#[derive(Debug, Drop)]
pub struct LayerList {
    /// One for each name, in declared order; 0 for input events.
    pub of_name: List<u32>,
}
