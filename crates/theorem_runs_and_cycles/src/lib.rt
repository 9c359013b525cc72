// Demand 3 of document 01 as one claim: specs/RunsAndCycles.antt; of the definitions at the kernel: specs/Demand3.antt; of what the code
// replies and leaves: specs/Simulate.antt and specs/PeriodicSteadyState.antt; of what `rig-steady` prints: specs/Printed.antt.
#![tactic(auto)]
