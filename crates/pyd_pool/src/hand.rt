//! A hand of the pool.
ghost use Rattle.std.specs.Prelude.{◌≡◌, ◌≤◌, ◌^◌};
ghost use Rattle.pyd_pool.specs.Whole.{put_by, taken_by};

use crate::reach::Reach;

/// One worker's part of the pool, with counts of what it has put and taken.
#[derive(Drop)]
pub struct Hand {
    pub(crate) reach: Reach,
    pub(crate) put: u64,
    pub(crate) taken: u64,
    ghost put_counted: { put ≡ put_by (λ t. 1) reach },
    ghost taken_counted: { taken ≡ taken_by (λ t. 1) reach },
    ghost put_fits: { put ≤ 2 ^ 56 },
    ghost taken_fits: { taken ≤ 2 ^ 62 },
}
