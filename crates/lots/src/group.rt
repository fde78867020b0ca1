//! The eight lots of one customer and asset, oldest first.
//! They come as a lent slice, as the store does: with a `&mut [Lot; 8]` what the store holds afterwards could not be proved.
ghost use Rattle.std.specs.Prelude.{◌≡◌, ◌+◌, ◌-◌, ◌^◌, ◌<◌, ◌≤◌, length, if◌then◌else◌, Some, None, nat_le};
ghost use Rattle.std.specs.List.{prefix_len};
ghost use Rattle.lots.specs.Groups.{total, used, added, oldest, moved_up, opened, paid};

/// Units that came in together, or joined the newest lot. An unused lot holds zero.
#[derive(Clone, Copy, PartialEq, Eq, Debug)]
pub struct Lot {
    pub units: u64,
}

/// The units in some lots.
pub(crate) fn held_in(group: &[Lot]) -> u64
    requires { total group.now < 2 ^ 64 }
    ensures { result ≡ total group.now }
{
    group.iter().map(|lot| lot.units).sum()
}

/// How many lots at the front are used.
fn used_in_front(lots: &[Lot]) -> usize
    ensures count { result ≡ prefix_len used lots.now }
    ensures within { result ≤ length lots.now }
{
    lots.iter().take_while(|lot| lot.units != 0).count()
}

/// Units come in: a new lot, or more in the newest.
#[tactic(auto, unfolding(crate::specs::Groups::added))]
pub(crate) fn add_to(group: &mut [Lot], amount: u64)
    requires eight { length group.old ≡ 8 }
    requires fits { total group.old + amount < 2 ^ 64 }
    ensures { group.new ≡ added group.old amount }
{
    let i = used_in_front(&group[..7]);
    group[i].units += amount;
}

/// The oldest lot is emptied, and those left move up.
fn move_up(group: &mut [Lot])
    requires eight { length group.old ≡ 8 }
    ensures { group.new ≡ moved_up group.old }
{
    group.rotate_left(1);
    group[7] = Lot { units: 0 };
}

/// Takes what it can from the oldest lot. The answer is what is still to be taken, where that lot was emptied.
fn pay_oldest(group: &mut [Lot], amount: u64) -> Option<u64>
    requires eight { length group.old ≡ 8 }
    ensures rest { result ≡ (if nat_le (oldest group.old) amount then Some (amount - oldest group.old) else None) }
    ensures after { group.new ≡ (if nat_le (oldest group.old) amount then moved_up group.old else opened group.old amount) }
{
    let first = group[0].units;
    let Some(rest) = amount.checked_sub(first) else {
        group[0].units = first - amount;
        return None;
    };
    move_up(group);
    Some(rest)
}

/// Units go out: the oldest lots first.
pub(crate) fn pay_from(group: &mut [Lot], amount: u64)
    requires eight { length group.old ≡ 8 }
    ensures { group.new ≡ paid 8 group.old amount }
{
    let mut left = amount;
    // The turn indexes nothing. Each empties a lot, and there are eight: of empty lots with nothing left to pay, a loop
    // without a count would go on.
    for turn in 0..8usize {
        let Some(rest) = pay_oldest(group, left) else {
            return;
        };
        left = rest;
    }
}
