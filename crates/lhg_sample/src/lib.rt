// A point of a piece of fractions, by a fixed rule.
//
// The last variable is eliminated, and the point of what is left is sought first. At its values the rows bound the last
// variable from below and from above, and since elimination is exact, some value lies between all these bounds. So the value
// that is chosen by the tightest two alone lies between them too.
#![tactic(auto)]

mod bounds;
mod points;
#[cfg(test)]
mod tests;

pub use points::sample;
