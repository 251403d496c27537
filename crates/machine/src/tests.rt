use crate::counter::{LIMIT, restore_counter};
use crate::types::Register;

// The register of a board of two levels just formatted under suite 2.
fn formatted() -> [u64; 32] {
    let mut words = [0; 32];
    words[0] = 1;
    words[1] = 2;
    words[2] = 2;
    words[12] = u64::MAX;
    words
}

// The same with another word at one place.
fn formatted_with(place: usize, word: u64) -> [u64; 32] {
    let mut words = formatted();
    if place < 32 {
        words[place] = word;
    }
    words
}

fn comes_back(words: [u64; 32]) -> bool {
    let register = Register::from(&words);
    Register::decode(&words) == register && <[u64; 32]>::from(&register) == words
}

fn is_valid_with(place: usize, word: u64) -> bool {
    Register::decode(&formatted_with(place, word)).is_valid()
}

#[test]
fn words_come_back(rt: HostRuntime) {
    assert!(rt; comes_back(formatted_with(31, 9)));
    // without a journal its line is not kept
    assert!(rt; !comes_back(formatted_with(21, 7)));
}

#[test]
fn only_formatted_registers_are_valid(rt: HostRuntime) {
    assert!(rt; !is_valid_with(0, 0));
    assert!(rt; !is_valid_with(1, 5));
    assert!(rt; !is_valid_with(10, LIMIT + 1));
    // two levels have the eight nodes 64 to 71
    assert!(rt; is_valid_with(22, 128));
    assert!(rt; !is_valid_with(22, 256));
    assert!(rt; is_valid_with(12, 71));
    assert!(rt; !is_valid_with(12, 72));
}

#[test]
fn counters_are_restored(rt: HostRuntime) {
    assert!(rt; restore_counter(1020, 3) == Some(1027));
    assert!(rt; restore_counter(1027, 2) == Some(2050));
    assert!(rt; restore_counter(LIMIT, 1023) == Some(LIMIT));
    assert!(rt; restore_counter(LIMIT, 0) == None);
    assert!(rt; restore_counter(u64::MAX, 0) == None);
}
