//! Which machines live.
ghost use Rattle.std.specs.Prelude.{◌≡◌, ◌≤◌, Contains, length, true};
ghost use Rattle.pyd_board.specs.Placing as spec;

// A machine's number is below this.
const NUMBERS: usize = 1 << 32;

// The entries that have a machine's number.
fn circle(alive: &[bool]) -> &[bool]
    ensures { result.now ≡ spec.circle alive.now }
{
    if alive.len() <= NUMBERS {
        alive
    } else {
        &alive[..NUMBERS]
    }
}

// The least live machine at a place or after it.
pub(crate) fn live_from(alive: &[bool], place: usize) -> Option<u32>
    ensures { result ≡ spec.live_from alive.now place }
{
    let circle = circle(alive);
    for machine in place..circle.len() {
        if circle[machine] {
            return Some(machine as u32);
        }
    }
    None
}

// The least live machine, 0 where no machine lives.
pub(crate) fn least_live(alive: &[bool]) -> u32
    ensures { result ≡ spec.least_live alive.now }
{
    live_from(alive, 0).unwrap_or(0)
}

// Whether the machine lives.
fn lives(alive: &[bool], machine: u32) -> bool
    ensures { result ≡ spec.lives alive.now machine }
{
    match alive.get(machine as usize) {
        Some(lives) => *lives,
        None => false,
    }
}

/// The machine that a placer's answer counts as: itself where it lives, else the least live one.
/// Entry m of `alive` says whether machine m lives. Where some entry that a `u32` numbers is true,
/// the machine lives. Takes no memory.
pub fn placed_on(alive: &[bool], answer: u32) -> u32
    ensures value { result ≡ spec.placed_on alive.now answer }
    ensures lives { Contains (spec.circle alive.now) true → spec.lives alive.now result ≡ true }
{
    if lives(alive, answer) {
        answer
    } else {
        least_live(alive)
    }
}
