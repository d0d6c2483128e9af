#![tactic(auto)]
//! Worked scripts over the definitions, by computation: each lemma file in proofs/ has the whole report of a script, or
//! what the check finds in one, proved by `refl`.
