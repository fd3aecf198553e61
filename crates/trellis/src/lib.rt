//! The theory of trellises: columns and answers are joins over all sequences of symbols. It has no code; crates above cite its lemmas.
#![tactic(auto)]
