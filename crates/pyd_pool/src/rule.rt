//! The rule of a deque and of a queue, and what each step tells.
ghost use Rattle.std.specs.Prelude.{◌≡◌, ◌+◌, ◌-◌, ◌++◌, ◌∷◌, []};
ghost use Rattle.pyd_pool.specs.Accounts.{account, Balanced, Held, WasEmpty, Left};

use crate::account::Account;
use pyd_board::Ticket;

pub struct Conserved;

impl crossbeam_queue::protocol::Protocol<Ticket, Account> for Conserved {
    ghost use Rattle.std.specs.Prelude.{[]};
    ghost use Rattle.pyd_pool.specs.Accounts.{account, Balanced};

    ghost holds = { Balanced };

    ghost first = { account 128 [] [] };
}

impl crossbeam_deque::protocol::Protocol<Ticket, Account> for Conserved {
    ghost use Rattle.std.specs.Prelude.{[]};
    ghost use Rattle.pyd_pool.specs.Accounts.{account, Balanced};

    ghost holds = { Balanced };

    ghost first = { account 128 [] [] };

    ghost guest = { account 0 [] [] };
}

pub struct Put;

impl crossbeam_queue::protocol::Outcome<Ticket, Account> for Put {
    ghost then = { λ v x w. w ≡ account v.parts (v.put ++ x ∷ []) v.taken };
}

impl crossbeam_deque::protocol::Outcome<Ticket, Account> for Put {
    ghost then = { λ v xs w. w ≡ account v.parts (v.put ++ xs) v.taken };
}

pub struct Took;

impl crossbeam_queue::protocol::Outcome<Ticket, Account> for Took {
    ghost then = { λ v x w. w ≡ account v.parts v.put (v.taken ++ x ∷ []) };
}

impl crossbeam_deque::protocol::Outcome<Ticket, Account> for Took {
    ghost then = { λ v xs w. w ≡ account v.parts v.put (v.taken ++ xs) };

    ghost empty = { WasEmpty };
}

impl crossbeam_queue::protocol::Lesson<Ticket, Account> for Took {
    ghost fact = { Held };
}

pub struct Parts;

impl crossbeam_deque::protocol::Split<Account> for Parts {
    ghost left = { λ v. account (v.parts - 1) v.put v.taken };

    ghost right = { λ v. account 1 [] [] };
}

impl crossbeam_deque::protocol::Join<Account> for Parts {
    ghost both = { λ v w. account (v.parts + w.parts) (v.put ++ w.put) (v.taken ++ w.taken) };

    ghost spent = { account 0 [] [] };
}
