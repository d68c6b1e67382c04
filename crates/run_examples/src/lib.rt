//! Worked examples over the definitions of whole runs, each computed from them alone: which words are a command, what each comes to, how a run ends and
//! what it prints. Nothing stands on this crate, so an example more proves nothing else again.
#![tactic(auto)]
