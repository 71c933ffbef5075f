//! Composites and their pieces, by hand from the rules of refining.

mod conds;
mod enters;
mod fors;
mod picks;
mod whiles;

/// How many pieces there are.
pub(super) const COUNT: usize = 109;

/// Scripts, each behind `§`, and behind `--- ` each of its pieces: a title; the limits on turns and depth,
/// and the composites that are refined in turn, each with its control; and the last one's piece.
pub(super) const TABLES: [&str; 5] = [
    conds::ROWS,
    whiles::ROWS,
    fors::ROWS,
    picks::ROWS,
    enters::ROWS,
];
