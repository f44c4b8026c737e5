// The stages of two nodes over a stand-in for the board.
mod beside;
mod crew;
mod fake;
mod one_thread;
mod refused;
