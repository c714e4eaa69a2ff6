//! The readers of `user` and the writers of `writers` on data from outside, a module for each kind.
mod crl;
mod entries;
mod filters;
mod structures;
mod validity;
mod written;
