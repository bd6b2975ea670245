// The rule of merging. There is no code here: specs/ has the definitions, proofs/ the theorems.
