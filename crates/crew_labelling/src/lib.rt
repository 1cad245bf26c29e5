//! The labelling of a network: which labels each departure, each arrival and the front of each duty
//! of a crew base has.
//!
//! Labels rise in time: the pool of a departure is made of those of the arrivals that it may wait
//! on, these of the fronts of the duties that arrive there, and these of the pools of the departures
//! which those duties leave from. So the pools of all departures, one after another in order of
//! report, are one function of the network and the resource, whatever it may forget
//! (`specs/Labellings`). A labelling is right where each of its lists rises and is the pool, or the
//! front, of what its other lists offer (`specs/Right`). The crate promises that the labelling that
//! is computed so is right and that no other one is, so whoever makes one of its pools from others
//! makes the same labels, with the same links; and that it is a covered pass (`crew_forgetful`), so
//! that its fronts are those of all legal lists of duties (`laws`). It has no code that runs.
#![tactic(auto)]

pub mod laws;
