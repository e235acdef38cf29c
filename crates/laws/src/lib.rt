// Laws of the signed numbers, of sums and of tests over an index, which every proof above cites. All of them stand in specs/.
#![tactic(auto)]
