//! Services that are played by hand, call by call, the histories that their actors share, and timers with handles.
mod acts;
mod alone;
mod cast;
mod direct;
mod held;
mod history;
mod looks;
mod moving;
mod notes;
mod playing;
mod stage;
mod timers;
mod words;
