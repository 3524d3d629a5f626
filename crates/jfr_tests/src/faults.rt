//! What goes wrong and what is extreme: each call of the outside fails in turn under every command, recordings end
//! anywhere, classes nest as deep as they may, and chunks have many checkpoints.

mod builds;
mod chains;
mod cuts;
mod nested;
mod parts;
mod runs;
mod scrub;
mod state_after;
mod sweep;
