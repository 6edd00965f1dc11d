//! Tests of what no contract of `risch_io` says: that no call gives up for want of memory, and the messages of faults.
#![tactic(auto)]

#[cfg(test)]
mod outside;
