//! Generated scripts, as a program from outside makes them: how many bytes they have, and a checksum.

use crate::given::given;
use crate::outcomes::expect_value;
use made_script::generated_script;
use std::alloc::Global;
use std::process::Abort;

// The checksum FNV-1a, of 64 bits.
fn checksum(bytes: &[u8]) -> u64 {
    let mut sum: u64 = 14_695_981_039_346_656_037;
    for byte in bytes {
        sum = (sum ^ u64::from(*byte)).wrapping_mul(1_099_511_628_211);
    }
    sum
}

// The length of a seed's script, and its checksum.
fn measured(rt: &impl Abort, alloc: Global, seed: u64) -> (usize, u64) {
    let text = given(rt, generated_script(alloc, seed));
    (text.len(), checksum(&text))
}

// Seeds, with the length and the checksum of their scripts.
static SCRIPTS: [(u64, usize, u64); 3] = [
    (0, 6839, 6_977_722_176_009_056_474),
    (1, 6824, 10_322_259_333_119_148_460),
    (u64::MAX, 6691, 12_563_413_973_981_708_592),
];

#[test]
fn scripts_are_made_as_a_program_from_outside_makes_them(rt: HostRuntime) {
    for (seed, length, sum) in &SCRIPTS {
        let found = measured(&rt, rt.alloc(), *seed);
        expect_value(&rt, "a seed", &found, &(*length, *sum));
    }
}
