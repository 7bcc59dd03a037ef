// Keys whose buckets are known.
use mb_base::NoMemory;
use places_by_key::Buckets;
use std::alloc::Global;

// Whether bucket k has these places; no, where there are more than ten keys, or k or a key is not below the count. So
// few keys are plainly below 2^32, as `Buckets::by_key` requires.
fn is_bucket(
    alloc: Global,
    keys: &[u32],
    count: usize,
    k: usize,
    places: &[u32],
) -> Result<bool, NoMemory> {
    if keys.len() > 10 || k >= count || !keys.iter().all(|key| (*key as usize) < count) {
        return Ok(false);
    }
    let buckets = Buckets::by_key(alloc, keys, count)?;
    Ok(buckets.bucket(k) == places)
}

// Keys, and the places in each bucket.
static TABLE: [(&[u32], &[&[u32]]); 6] = [
    (&[], &[&[], &[], &[]]),
    (&[0], &[&[0]]),
    (&[2], &[&[], &[], &[0]]),
    (&[0, 0, 0, 0], &[&[0, 1, 2, 3]]),
    (&[2, 1, 0], &[&[2], &[1], &[0]]),
    (
        &[4, 1, 3, 1, 4, 4, 1],
        &[&[], &[1, 3, 6], &[], &[2], &[0, 4, 5], &[]],
    ),
];

#[test]
fn places_are_gathered_by_key(rt: HostRuntime) {
    for (keys, wanted) in &TABLE {
        for k in 0..wanted.len() {
            let is = is_bucket(rt.alloc(), keys, wanted.len(), k, wanted[k]);
            assert!(rt; is.expect(&rt, "memory"), "{k} of {keys:?}");
        }
    }
}
