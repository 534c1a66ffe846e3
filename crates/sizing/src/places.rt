// Where slots can be added along a walk in the extended graph.
ghost use Rattle.std.specs.Prelude.{◌≡◌, ◌/◌, ◌<◌, ◌≤◌, length, MatchOption, slice_index};
ghost use Rattle.sizing.specs.Trials.{Backward};

// The channel, counted from 0, along which a place leads back, if it does and the channel's queue is below its cap.
pub(crate) fn channel_with_room(place: u16, sizes: &[u8], caps: &[u8]) -> Option<usize>
    requires within { place / 2 < length sizes.now }
    requires capped { length sizes.now ≡ length caps.now }
    ensures { MatchOption result (Backward place → slice_index caps.now (place / 2) ≤ slice_index sizes.now (place / 2)) (λ e. (e ≡ place / 2) × (slice_index sizes.now e < slice_index caps.now e)) }
{
    let channel = place as usize / 2;
    if place % 2 == 1 && sizes[channel] < caps[channel] {
        Some(channel)
    } else {
        None
    }
}
