// Tests of each crate of the memory.
mod evict;
mod frames;
mod kept;
mod lines;
mod memory;
mod plain;
mod plb;
mod policy;
mod table;
mod window;
