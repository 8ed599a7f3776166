// Rule books: a rule as the code holds it, the trait that every book meets, and the two books.
#![tactic(auto)]

pub mod book;
pub mod combinators;
pub mod counts;
mod owning;
mod shelf;
pub mod table;
#[cfg(test)]
mod tests;
