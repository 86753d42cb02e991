// No code: how the numbers of a plan stand beside the records of a file.
#![tactic(auto)]
