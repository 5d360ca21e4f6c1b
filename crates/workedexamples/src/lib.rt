// The twelve examples that 01 marks P, computed from the definitions (`Examples` in the specs of `rules`): `examples_hold` in proofs/
// says that each gives what 01 says, and `report_holds` that the report on the triangle is 01's with 02's request a. They stand in a
// crate of their own, without code, so that they are not computed anew for every edit of a definition.
#![tactic(auto)]
