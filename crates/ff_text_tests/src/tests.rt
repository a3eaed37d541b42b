// Tests of each crate of numbers, calls and texts.
mod base;
mod input;
mod io;
mod model;
mod report;
mod settings;
mod trace;
mod words;
