//! The input events that stand, and what changed since the store was settled last. Its promise: an
//! add, a revoke or a list of both changes what stands by exactly that, and what stood by nothing;
//! a slide forgets the points up to and with its own; a look-up gives the points of one event, and
//! a window is read out by event and point; a call that is refused changes nothing. Words on later
//! queries wait beside it. It stands on `indexmap`, which finds an event, on `span_algebra` for
//! lists of points, and on `ground_types` for numbers of events.
#![tactic(auto)]

mod ahead;
mod marks;
mod occurring;
mod store;
mod telling;
mod told;

pub use ahead::Ahead;
pub use store::EventStore;
pub use told::Told;

#[cfg(test)]
mod tests;
