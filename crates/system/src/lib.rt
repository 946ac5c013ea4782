// All correct nodes of a system together: demand 3, the claim of section 14 of docs/RULES.md, stated and
// proved about the calls. Definitions and theorems only.

#![tactic(auto)]
