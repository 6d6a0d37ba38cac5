// Four tasks on one memory: theorems about the definition of their run, in proofs/Theorems, over the definitions in specs/.
// There is no code here.
#![tactic(auto)]
