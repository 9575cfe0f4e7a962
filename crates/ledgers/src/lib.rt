// The ledger of a session's calls, and the law that binds every list of them (specs/).
#![tactic(auto)]
