//! All places of a hand.
ghost use Rattle.std.specs.Prelude.{◌≡◌, ◌+◌, ◌<◌, ◌≤◌, vec_len};
ghost use Rattle.crossbeam_deque.specs.Handles.{worker_flavor, worker_view};

use crate::places::{DequeOwner, OtherDeque, SharedQueue};

/// A worker's own deque, and its passes of all deques and queues.
#[derive(Drop)]
pub struct Reach {
    pub(crate) own: DequeOwner,
    pub(crate) deques: Vec<OtherDeque>,
    pub(crate) queues: Vec<SharedQueue>,
    pub(crate) home: usize,
    ghost in_order: { worker_flavor own ≡ 0 },
    ghost part: { (worker_view own).parts + vec_len deques ≡ 128 },
    ghost few: { vec_len deques ≤ 64 },
    ghost home_in: { home < vec_len queues },
}
