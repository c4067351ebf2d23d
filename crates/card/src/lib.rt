// A save card over any kind of engine and any store.
#![tactic(auto)]

mod belongs;
pub mod card;
mod change;
pub mod dispatch;
mod engines;
mod frame;
mod make;
mod mount;
