//! Lost swaps, counted along a call.
//!
//! A swap is lost where it finds another word than it expected. `specs/Loses.antt` counts the lost swaps of a program
//! along each way in which its acts may be answered; `specs/Again.antt` says of whole calls that one which answers Again
//! has lost as many swaps as it tells. The texts count down what may still be lost (docs/PROTOCOL.md, "Counted swaps");
//! `proofs/` shows of each that what is counted down was lost: the drops of a pass, the Takes of a taking, the parts of an
//! insert, the places of a split. The law is about the texts alone, on any answers at all; the crate stands on `call_texts`
//! and serves worlds, whose calls are traces of these texts.
#![tactic(auto)]

mod laws;

pub use laws::law_again_is_lost;
