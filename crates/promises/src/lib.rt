// That no second outcome fits a promise (01, "Promises that leave no choice"): a theorem for each public function but feed's, in proofs/Once.antt and proofs/Programs.antt. There is no code here.

#![tactic(auto)]
