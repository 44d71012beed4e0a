//! Titan for C: a session of `run` behind a handle. C allocates the handle, and the handle owns what it points to. Each call says by
//! its status what became of it.
#![tactic(auto)]

mod calls;
mod handle;
mod laws;
mod status;
