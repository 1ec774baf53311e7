// That the endpoint's malformed rule and the ledger's agree (document 01, "Malformed means one of"): definitions and theorems alone.
#![tactic(auto)]
