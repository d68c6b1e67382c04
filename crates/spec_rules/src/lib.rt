//! The rules of a description as definitions: a document's table is a description, or breaks a rule.
#![tactic(auto)]
