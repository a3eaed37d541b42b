// Tests of each layer over a simulated flash, from the store up.
mod cores;
mod devices;
mod found;
mod mounts;
mod plans;
mod rules;
mod sessions;
mod stores;
