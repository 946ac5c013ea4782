// Two nodes' records side by side after a list of calls, as section 14 of docs/RULES.md has them: definitions and theorems alone.

#![tactic(auto)]
