//! The places of connections: in all, and of each address.

ghost use Rattle.std.specs.Prelude.{◌≡◌, ◌↔◌, ◌<◌, ◌≤◌, ◌+◌, ◌-◌, ◌⊎◌, IfSome, IfNone, None, IsTrue, false};
ghost use Rattle.std.specs.BTreeMap.{get, IsUnchanged};
ghost use Rattle.serve_door.specs.Places.{open_of, OtherAddressesStay};

use std::collections::BTreeMap;

/// Whether there is a place beside so many that are taken. Without a bound there always is.
pub(crate) fn has_place(taken: u64, most: Option<u64>) -> bool
    ensures bounded { IfSome most (λ most. IsTrue result ↔ (taken < most)) }
    ensures unbounded { IfNone most (IsTrue result) }
{
    match most {
        Some(most) => taken < most,
        None => true,
    }
}

/// Takes a place of an address, where fewer than so many are taken; else it changes nothing. Returns whether it took one.
/// Memory is wanted, and may be refused, for an address that has none yet.
pub(crate) fn take_place<K: Ord + Drop>(
    counts: &mut BTreeMap<K, u64>,
    address: K,
    most: u64,
) -> bool
    ensures taken { IsTrue result → (open_of K.cmp counts.old address < most)
        × (open_of K.cmp counts.new address ≡ open_of K.cmp counts.old address + 1) }
    ensures others { OtherAddressesStay K.cmp address counts.old counts.new }
    ensures refused { result ≡ false → IsUnchanged counts.old counts.new }
    ensures full { result ≡ false → (most ≤ open_of K.cmp counts.old address) ⊎ (get K.cmp counts.old address ≡ None) }
{
    let taken = counts.get(&address).copied().unwrap_or(0);
    if taken >= most {
        return false;
    }
    counts.insert(address, taken + 1).is_ok()
}

/// Gives a place of an address back, if one is taken. An address that has none any more isn't kept.
pub(crate) fn give_back_place<K: Ord + Drop>(counts: &mut BTreeMap<K, u64>, address: K)
    ensures given { open_of K.cmp counts.new address ≡ open_of K.cmp counts.old address - 1 }
    ensures gone { open_of K.cmp counts.old address ≤ 1 → get K.cmp counts.new address ≡ None }
    ensures others { OtherAddressesStay K.cmp address counts.old counts.new }
{
    let taken = counts.get(&address).copied().unwrap_or(0);
    if taken <= 1 {
        counts.remove(&address);
        return;
    }
    // The address has an entry, so this takes no memory.
    let _ = counts.insert(address, taken - 1);
}
