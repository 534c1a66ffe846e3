ghost use Rattle.std.specs.Prelude.{◌≡◌, ℕ, suc, ◌<◌, ◌≤◌, map, length, take, slice_index};

// Puts the numbers of the places of a walk, which count from 1, into the front of a list.
pub(crate) fn put_numbers(walk: &[u16], numbers: &mut [u16])
    requires room { length walk.now ≤ length numbers.old }
    requires few { (i : ℕ) → i < length walk.now → slice_index walk.now i < 384 }
    ensures front { take (length walk.now) numbers.new ≡ map suc walk.now }
    ensures behind { (i : ℕ) → length walk.now ≤ i → slice_index numbers.new i ≡ slice_index numbers.old i }
{
    let front = &mut numbers[0..walk.len()];
    front.copy_from_slice(walk);
    for number in front.iter_mut() {
        *number += 1;
    }
}
