use crate::opening::{STRANGE, refused};
use sheets::word::{BookWord, Word};
use std::process::Abort;

// The word is strange as the first of a sheet and in a ranking.
fn strange(rt: &impl Abort, word: u32) {
    refused(rt, &[word], STRANGE, 0);
    let sheet = [0x10000001, 0x20000001, 0x30000000, word];
    refused(rt, &sheet, STRANGE, 3);
}

// A word with one field has bits 12 to 27 zero, and one with two fields bits 24 to 27.
#[test]
fn every_other_bit_of_a_book_word_is_zero(rt: HostRuntime) {
    for word in [0x10000001, 0x30000000, 0x40000001] {
        for bit in 12..28u32 {
            strange(&rt, word | 1 << bit);
        }
    }
    for bit in 24..28u32 {
        strange(&rt, 0x20000001 | 1 << bit);
    }
}

#[test]
fn a_book_sheet_has_kinds_1_to_4_alone(rt: HostRuntime) {
    for kind in [0u32, 5, 6, 7, 8, 9, 10, 11, 12, 13, 14, 15] {
        strange(&rt, kind << 28 | 1);
    }
    strange(&rt, 0x00000000);
    strange(&rt, 0xffffffff);
}

#[test]
fn a_book_word_has_its_fields(rt: HostRuntime) {
    assert_eq!(rt;
        BookWord::read(0x10000fff, 0),
        Ok(BookWord::Shed { cap: 0xfff })
    );
    assert_eq!(rt;
        BookWord::read(0x20abc123, 0),
        Ok(BookWord::Lane {
            target: 0xabc,
            capacity: 0x123,
        })
    );
    assert_eq!(rt;
        BookWord::read(0x30000abc, 0),
        Ok(BookWord::Rank { lane: 0xabc })
    );
    assert_eq!(rt;
        BookWord::read(0x40000123, 0),
        Ok(BookWord::Next { lot: 0x123 })
    );
}
