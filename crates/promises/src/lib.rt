// What is promised of the desk, over bytes and histories of calls. No code: definitions, in specs/, and theorems, in proofs/.

#![tactic(auto)]
