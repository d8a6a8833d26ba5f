// What a host in Rust or C calls. Nothing here asks anything of its caller: a slice is a pointer and then a length, an array a pointer.
#![tactic(auto)]

mod calls;
mod count;
mod pooled;
mod rows;
mod scan;
mod screens;
mod shown;
mod statement;
mod who;
