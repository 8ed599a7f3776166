use nets::table::Table;

/// A net of a book that no run works on.
#[derive(Drop)]
pub struct Net<B> {
    pub(crate) book: B,
    pub(crate) table: Table,
}
