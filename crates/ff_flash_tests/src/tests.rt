// Tests of each crate of the flash and the parts over it.
mod cache;
mod flash;
mod gc;
mod map;
mod rrip;
mod space;
