// Document 02, U3: BLIF, as definitions. specs/ says what a text's lines, words, model and sheet are; proofs/ has what holds of them.
#![tactic(auto)]
