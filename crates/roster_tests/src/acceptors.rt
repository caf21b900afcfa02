//! An acceptor over a socket whose address can't be bound, and the open gate.

use outside_ports::{Acceptor, Gate, IoError, OpenGate, TcpAcceptor};
use std::alloc::Global;
use std::process::Abort;

// An acceptor that doesn't listen says why, and fails at each call.
fn assert_deaf(rt: &impl Abort, alloc: Global, mut acceptor: TcpAcceptor<HostRuntime>) {
    let is_told = acceptor.bind_error().is_some();
    let fails = matches!(acceptor.next(alloc), Err(IoError::Failed))
        && matches!(acceptor.next(alloc), Err(IoError::Failed));
    assert_eq!(rt;
        (is_told, fails, acceptor.given(), acceptor.faults()),
        (true, true, 0, 2)
    );
}

// No host and port, and an address that is kept for documents, so that no machine has it and no name is looked up.
static ADDRESSES: [&str; 3] = ["", "lake", "192.0.2.1:80"];

#[test]
fn acceptor_at_no_address_fails(rt: HostRuntime) {
    for address in &ADDRESSES {
        let acceptor = TcpAcceptor::at(rt, address);
        assert_deaf(&rt, rt.alloc(), acceptor.beside());
        assert_deaf(&rt, rt.alloc(), acceptor);
    }
}

#[test]
fn open_gate_holds_nobody(_rt: HostRuntime) {
    OpenGate.arrive(0, 0);
    OpenGate.passed(0, 0);
}
