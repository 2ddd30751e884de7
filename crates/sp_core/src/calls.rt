//! The calls of a core, by what they are about. Each is one turn of the caller whose number it is given.
pub(crate) mod apart;
pub(crate) mod attach;
pub(crate) mod begin;
pub(crate) mod close;
pub(crate) mod collect;
pub(crate) mod contexts;
pub(crate) mod immediate;
pub(crate) mod serve;
pub(crate) mod tick;
