// A run as a list of calls, as section 14 of docs/RULES.md has them: definitions and theorems alone.

#![tactic(auto)]
