//! Elements, vectors and tables at work.

mod algebra;
mod steps;
mod terms;
mod tracing;
mod vectors;
