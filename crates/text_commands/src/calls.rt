// Texts of calls of INT 13h over a session. Each line is served, and its answer is printed; what is left in the bays is
// stored at the end.
mod laws;
mod line;
mod serve;
mod text;

pub use laws::calls_count;
pub use serve::serve_calls;
