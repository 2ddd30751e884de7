//! Numbers of errors, and of listeners with the schemes of their addresses.
use crate::checks::{holds, made, same};
use sp_base::{AddrError, ListenerSchemes, NoMemory, Scheme, SpError};

#[test]
fn errors_have_their_numbers(rt: HostRuntime) {
    same(&rt, SpError::from(NoMemory).code(), 2);
    same(&rt, AddrError::from(NoMemory), AddrError::NoMemory);
    same(&rt, SpError::from(AddrError::NoMemory).code(), 2);
    same(&rt, SpError::from(AddrError::Fault { at: 3 }).code(), 15);
}

#[test]
fn listeners_are_numbered_from_0_on(rt: HostRuntime) {
    let mut schemes = ListenerSchemes::new(rt.alloc());
    same(&rt, made(&rt, schemes.add(Scheme::Tcp)), 0);
    same(&rt, made(&rt, schemes.add(Scheme::Ws)), 1);
    same(&rt, made(&rt, schemes.add(Scheme::Tcp)), 2);
    holds(&rt, schemes.has(2));
    holds(&rt, !schemes.has(3));
}
