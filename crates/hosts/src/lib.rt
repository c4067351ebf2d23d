// What a host written in C calls: one frame sealed or opened in place, on each path.
#![tactic(auto)]

mod call;
mod exports;
mod way;
