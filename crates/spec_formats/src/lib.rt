//! The bytes of ADS: return codes, the AMS header, payloads, notifications and entries, as definitions.
#![tactic(auto)]
