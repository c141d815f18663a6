// What a pick is about: the thread's head, a cell, an object, the counts; and what a move does to them.
#![tactic(auto)]

use run_frames::refocusing::Ready;
use run_keys::KeySet;

pub mod acted;

// What a run goes by: the mask of the volatile fields, whose top bit is field 0, and the plan's version.
#[derive(Clone, Copy)]
pub struct Setting {
    pub mask: usize,
    pub version: usize,
}

// A thread: the redex that moves next, its depth, the object that stands for it, its keys, how many of them it has learnt from others.
#[derive(Clone, Copy)]
pub struct Head {
    pub ready: Ready,
    pub depth: usize,
    pub object: usize,
    pub keys: KeySet,
    pub learnt: usize,
}

// A field or a monitor: the set of a volatile field or a monitor, its value, the one key of a plain field. Two numbers of 32 bits fill a word: a run
// has 1,024 cells, and filling them is most of a play without picks.
#[derive(Clone, Copy)]
pub struct Cell {
    pub keys: KeySet,
    pub value: u32,
    pub key: u32,
}

// An object's fields, and the number of the thread that it stands for, 8 if none.
#[derive(Clone, Copy)]
pub struct Object {
    pub mask: usize,
    pub thread: usize,
}

#[derive(Clone, Copy)]
pub struct Counts {
    pub threads: usize,
    pub objects: usize,
    pub keys: usize,
}

// A record without its thread; kind::NONE is none.
#[derive(Clone, Copy)]
pub struct Entry {
    pub kind: usize,
    pub object: usize,
    pub field: usize,
    pub value: usize,
}
