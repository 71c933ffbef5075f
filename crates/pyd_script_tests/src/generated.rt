//! The text of five numbers, against what tools/generated_source.py writes.
use pyd_gen::make_source;
use std::test::Fail;

// The number, the length of its text in bytes, and the sum of these, each times its place from 1.
const TEXTS: [(u64, usize, u64); 5] = [
    (0, 5190, 946186837),
    (7, 5193, 947198172),
    (100, 5190, 946268451),
    (101, 5190, 946186837),
    (18446744073709551615, 5197, 948429183),
];

// The sum of these bytes, each times its place from 1.
fn digest(bytes: &[u8]) -> u64 {
    let mut sum: u64 = 0;
    let mut place: u64 = 0;
    for byte in bytes {
        place = place.wrapping_add(1);
        sum = sum.wrapping_add(place.wrapping_mul(u64::from(*byte)));
    }
    sum
}

#[test]
fn the_text_is_that_of_the_script(rt: HostRuntime) -> Result<(), Fail> {
    let alloc = rt.alloc();
    for (number, length, sum) in TEXTS {
        let text = make_source(alloc, number)?;
        assert_eq!(rt; text.len(), length, "number {number}");
        assert_eq!(rt; digest(text.as_slice()), sum, "number {number}");
    }
    Ok(())
}
