//! Tests of what stands below a run: the wire side from proto3's fields to jobs, names, folders and records, coordinators,
//! and the lines of the filters: outside vectors, printed texts, and corners that decoders get wrong.
#![tactic(auto)]

#[cfg(test)]
mod build;
#[cfg(test)]
mod edits;
#[cfg(test)]
mod fields;
#[cfg(test)]
mod folder_bytes;
#[cfg(test)]
mod gathered;
#[cfg(test)]
mod job_calls;
#[cfg(test)]
mod keepers;
#[cfg(test)]
mod messages;
#[cfg(test)]
mod ops;
#[cfg(test)]
mod orders;
#[cfg(test)]
mod own_coordinator;
#[cfg(test)]
mod saves;
#[cfg(test)]
mod texts;
