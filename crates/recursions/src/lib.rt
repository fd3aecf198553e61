//! The reduced-state forward-backward recursions as definitions, and what follows from them. It has no code; crates above cite its definitions and lemmas.
#![tactic(auto)]
