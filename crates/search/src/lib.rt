// Learning depth-first search over the bytes of an accepted sheet: visits and passes.
#![tactic(auto)]

mod kept; // kept.rt: the least price, and the prices kept for it
mod visits; // visits.rt: a visit to a state
pub mod passes; // passes.rt: passes, visits to the start
