// The protocol on values: what a node keeps of a slot, what a bundle does to it, and that all correct
// nodes together deliver alike. Definitions and theorems only; the crates above run it on bytes.

#![tactic(auto)]
