// The bench values of document 01: specs/BenchValues.antt states them, proofs/Table.antt proves them of the definitions.
#![tactic(auto)]
