//! The order in which the workers of a run act.

/// One delivery's way: a session's, to a lane.
#[derive(Clone, Copy, Debug, Drop)]
pub struct Route {
    pub session: u8,
    pub lane: u8,
}

/// The order in which the workers of a run act: the ways of all deliveries in the order of the
/// capture, and for each control event of the script the session that it concerns, none where it
/// concerns all. What is brought stands in the plan: what a course leaves out comes when its
/// worker ends.
#[derive(Drop)]
pub struct Course {
    pub routes: Vec<Route>,
    pub events: Vec<Option<u8>>,
}
