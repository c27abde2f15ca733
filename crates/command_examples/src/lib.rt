//! Worked examples of the words that the contract of `fabric_tool` has, computed by the check.
#![tactic(auto)]
