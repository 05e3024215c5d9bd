//! Which lines of a derivation are allowed: what is proved of how a part and its lines may be written. No function stands
//! here.
#![tactic(auto)]
