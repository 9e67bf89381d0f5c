//! Lists that each input fills anew.
use front_model::Step;
use std::alloc::Global;

/// The steps of the front for one input, and which lanes tick behind them.
///
/// What the lists hold between two inputs means nothing: they are kept so that their memory is
/// taken once.
#[derive(Drop)]
pub struct Room {
    pub steps: Vec<Step>,
    pub touched: Vec<usize>,
}

impl Room {
    /// Empty lists, for which no memory is taken yet.
    pub fn new(alloc: Global) -> Room {
        Room {
            steps: Vec::new(alloc),
            touched: Vec::new(alloc),
        }
    }
}
