// What is claimed of every list of calls (document 01, "What demand 3 compares"): definitions and theorems alone.
#![tactic(auto)]
