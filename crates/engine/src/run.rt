use crate::marks::Marks;
use crate::net::Net;

/// A net that is worked on: its active pairs wait in the strategy or are out, under slips with this run's stamp; the cells of a pair that is out are marked.
/// The count is the number of interactions made.
#[derive(Drop)]
pub struct Run<B, S> {
    pub(crate) net: Net<B>,
    pub(crate) strategy: S,
    pub(crate) marks: Marks,
    pub(crate) stamp: u32,
    pub(crate) count: u32,
}
