// The protocol of the network: definitions and laws only; there is nothing to run.

#![tactic(auto)]
