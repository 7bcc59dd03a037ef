// What stays the same throughout a run, and at a line of a script.
use mb_base::{KernelKind, Limits};
use std::alloc::Global;

/// What stays the same throughout a run: where its memory comes from, the decimal digits of a unit in its files, and its limits.
#[derive(Drop)]
pub struct Settings<'r> {
    pub alloc: Global,
    pub digits: u8,
    pub limits: &'r Limits,
}

/// What stays the same at a line of a script: what does throughout the run, the name of the script's file and the number of the line, and the kernels
/// that its operation is taken under. The settings stand here field by field, so that a clause names each by one word.
#[derive(Drop)]
pub struct AtLine<'r, 'a> {
    pub alloc: Global,
    pub digits: u8,
    pub limits: &'r Limits,
    pub script: &'a str,
    pub line: u64,
    pub kernels: KernelKind,
}
