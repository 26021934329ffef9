// What the customer is promised of each exported call, in the documents' words, and that every answer that is a defined outcome's keeps it.
#![tactic(auto)]
