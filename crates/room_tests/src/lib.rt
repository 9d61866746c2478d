// What rooms do on examples, and code over any room.
#![tactic(auto)]

#[cfg(test)]
mod alike;
#[cfg(test)]
mod constants;
#[cfg(test)]
mod free;
#[cfg(test)]
mod windows;
