//! The entries of the tables. They stand apart from the calls: the record of the tables may cite no definition that reads
//! it.

use std::alloc::Allocator;
use syntax::tree::{Function, Global, Stmt};

/// A global, with its first cell.
#[derive(Clone, Copy)]
pub struct Shared<'p, A: Allocator> {
    pub cell: usize,
    pub global: &'p Global<A>,
}

/// Where a function stands that has a body: the number of its item, and its own among those that have one, from 0.
#[derive(Clone, Copy)]
pub(crate) struct FunctionPlace {
    pub item: usize,
    pub number: usize,
}

/// A function that has a body, with its number among those that have one, from 0.
#[derive(Drop)]
pub struct FunctionEntry<'p, A: Allocator> {
    pub number: usize,
    pub function: &'p Function<A>,
    pub body: &'p [Stmt<A>],
}

/// What a name is first declared as in the file.
#[derive(Drop)]
pub enum Symbol<'p, A: Allocator> {
    Unknown,
    Global(&'p Global<A>),
    Function(&'p Function<A>),
}
