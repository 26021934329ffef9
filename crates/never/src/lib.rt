// Horizons on the definitions, apart from the code: how late least labels can be, and so when no horizon would do, or a larger one.
#![tactic(auto)]
