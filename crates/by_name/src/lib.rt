// Claims over any indexer and any lookup; there is no code here.

#![tactic(auto)]
