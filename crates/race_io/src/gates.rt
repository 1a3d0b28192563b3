//! The gate before each call of a running client.

/// What a running client passes before each of its calls. A test can hold a client here.
pub trait Gate: Sync {
    /// Client number `client`, counted from 0, is about to begin its call number `call`, counted from 1.
    fn before(&self, client: u32, call: u32);
}

/// The gate that holds nobody.
#[derive(Clone, Copy, Debug)]
pub struct OpenGate;

impl Gate for OpenGate {
    fn before(&self, _client: u32, _call: u32) {}
}
