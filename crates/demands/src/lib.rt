// The three demands, that there is no second answer, that a state handed back is taken again, who moves the flag, where it was thrown, what
// sums of double length come to, how interrupt lines enter and that the memory sum stays true: theorems
// about the machine's definition, in proofs/Theorems, over the definitions in specs/. There is no code here.
#![tactic(auto)]
