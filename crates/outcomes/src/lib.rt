// What the contracts of the services allow: one outcome for each input, and none of these impostors. There is no code here.
#![tactic(auto)]
