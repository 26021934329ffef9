// Earlier forms of the sheet, apart from the code: document 01's, before a node had its q, and that of document 02 before U8, without a period and
// entries. A sheet rewritten with q = 0 in every node, and with P = 1 and no entries, keeps its outcome.
#![tactic(auto)]
