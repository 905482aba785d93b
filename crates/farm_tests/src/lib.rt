//! Tests of executions, and of runs on threads.
#![tactic(auto)]

#[cfg(test)]
mod board_calls;
#[cfg(test)]
mod definitions;
#[cfg(test)]
mod hostile;
#[cfg(test)]
mod runs;
#[cfg(test)]
mod shared_batches;
#[cfg(test)]
mod threads;
