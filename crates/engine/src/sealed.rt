use crate::net::Net;

// a state is a type: only a sealed net is opened
/// A net from a text, from a file, or from a run that was left: it may be opened, written and compared.
#[derive(Drop)]
pub struct Sealed<B> {
    pub(crate) net: Net<B>,
}
