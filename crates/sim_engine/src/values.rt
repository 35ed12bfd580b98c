ghost use Rattle.std.specs.Prelude.{◌≡◌, ◌+◌, ◌%◌, ◌^◌, ◌<◌, ◌≤◌, ◌++◌, All, drop, length, map, slice_index, sum, take};

/// Writes numbers into the values from a place on.
pub fn put(values: &mut Vec<u64>, first: usize, new: &[u64])
    requires { first + length new.now ≤ length values.old.items }
    ensures { values.new.items ≡ take first values.old.items ++ new.now
        ++ drop (first + length new.now) values.old.items }
{
    values[first..first + new.len()].copy_from_slice(new);
}

/// Writes the values at some places into a list, in their order.
pub fn gather(values: &[u64], places: &[u32], into: &mut [u64])
    requires exist { All (λ place. place < length values.now) places.now }
    requires room { length into.old ≡ length places.now }
    ensures { into.new ≡ map (slice_index values.now) places.now }
{
    for (at, place) in places.iter().enumerate() {
        into[at] = values[*place as usize];
    }
}

/// Writes the values at some places into a list that is kept, in their order.
pub fn keep(values: &[u64], places: &[u32], kept: &mut Vec<u64>)
    requires exist { All (λ place. place < length values.now) places.now }
    requires room { length kept.old.items ≡ length places.now }
    ensures { kept.new.items ≡ map (slice_index values.now) places.now }
{
    gather(values, places, kept);
}

/// The sum of some numbers, modulo 2^64.
pub fn wrapped_sum(values: &[u64]) -> u64
    ensures { result ≡ sum values.now % 2 ^ 64 }
{
    let mut total = 0u64;
    for value in values {
        total = total.wrapping_add(*value);
    }
    total
}
