//! Sections of which the parts are written one after another: that each step of them is allowed. No function stands here.
#![tactic(auto)]
