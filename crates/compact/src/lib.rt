// Rows by component: the compact layout of a controller's table, and the way between both layouts. Definitions in specs/, theorems in proofs/. There is no
// code.

#![tactic(auto)]
