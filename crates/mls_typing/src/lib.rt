//! Inference as a relation, by the types that expressions and schemes have: what it answers is best, or the first node
//! without a scheme. Nothing here says how constraints are solved.
#![tactic(auto)]

pub mod inference_laws;
