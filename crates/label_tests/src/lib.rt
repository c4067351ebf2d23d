// Labels as a tester meets them, in hex dumps and with a byte changed. The tests have a crate of their own, since a crate with tests is proved twice.
#![tactic(auto)]

#[cfg(test)]
mod tests;
