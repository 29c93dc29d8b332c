use ident::{
    Kind, Letter, Letters, MAX_CHECKPOINTS, Mark, Marks, Move, NoMemory, Quota, Refusal, Row, Seat,
    Source, Start, TenantName, Text, Texts, Unit,
};
use std::test::Fail;

const REFUSALS: [(u8, &str, Refusal); 19] = [
    (1, "bad-line", Refusal::BadLine),
    (2, "no-tenant", Refusal::NoTenant),
    (3, "already-open", Refusal::AlreadyOpen),
    (4, "bad-open", Refusal::BadOpen),
    (5, "no-unit", Refusal::NoUnit),
    (6, "down", Refusal::Down),
    (7, "up", Refusal::Up),
    (8, "no-letter", Refusal::NoLetter),
    (9, "wait", Refusal::Wait),
    (10, "orphan", Refusal::Orphan),
    (11, "repeat", Refusal::Repeat),
    (12, "gap", Refusal::Gap),
    (13, "quota", Refusal::Quota),
    (14, "too-much", Refusal::TooMuch),
    (15, "unlogged", Refusal::Unlogged),
    (16, "limit", Refusal::Limit),
    (17, "store", Refusal::Store),
    (18, "memory", Refusal::Memory),
    (19, "pending", Refusal::Pending),
];

#[test]
fn refusals_have_their_numbers_and_names(rt: HostRuntime) {
    for (number, name, refusal) in REFUSALS {
        assert_eq!(rt; refusal.number(), number);
        assert!(rt; refusal.name() == name, "refusal {number}");
    }
}

#[test]
fn names_have_1_to_32_bytes_of_a_to_z_digits_and_hyphen(rt: HostRuntime) -> Result<(), Fail> {
    for (text, is_name) in [
        ("a", true),
        ("tenant-07", true),
        ("abcdefghijklmnopqrstuvwxyz-01234", true),
        ("", false),
        ("abcdefghijklmnopqrstuvwxyz-012345", false),
        ("A", false),
        ("a_b", false),
        ("\u{e9}", false),
    ] {
        assert!(rt; TenantName::new(text).is_some() == is_name, "{text}");
    }
    Ok(())
}
