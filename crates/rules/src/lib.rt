// Document 01's rules. No code: specs/ has the definitions (read specs/Rules.antt first), proofs/ the theorems about them.
#![tactic(auto)]
