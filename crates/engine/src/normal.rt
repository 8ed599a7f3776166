use crate::net::Net;

// a state is a type: no run opens from a normal net
/// A net in normal form, from a run that was closed: it may be read back, written and compared.
#[derive(Drop)]
pub struct Normal<B> {
    pub(crate) net: Net<B>,
}
