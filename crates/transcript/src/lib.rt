//! The text of a receiver, read back and written again.
#![tactic(auto)]
