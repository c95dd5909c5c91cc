//! What a node parks, and nodes that are played by tables of steps.

mod making;
mod nodes;
mod parking;
mod playing;
mod tables;
