use crate::schedule::Schedule;
use std::marker::PhantomData;

// Holds the schedule of one key; `H` is the form of a half in which it computes.
#[derive(Drop)]
pub struct Camellia<H> {
    pub schedule: Schedule,
    pub path: PhantomData<H>,
}
