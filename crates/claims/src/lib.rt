// Every claim of the repository on one page, with its proof, and each of them applied to a worked case; there is nothing to run.

#![tactic(auto)]
