//! What the readers and writers of bytes share: steps that may fail, and their laws. It has no code.
#![tactic(auto)]
