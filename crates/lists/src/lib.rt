// Laws of tests and of lists that every other crate of laws leans on; there is no code here.
#![tactic(auto)]
