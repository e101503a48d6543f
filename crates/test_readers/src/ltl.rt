//! Texts that are accepted and refused, at each limit.

use crate::numbers::refusal_of;
use rv_ltl::read_ltl;
use rv_model::Formula;
use std::alloc::{AllocError, Global};
use std::test::Fail;

fn put(text: &mut Vec<u8>, part: &[u8], times: usize) -> Result<(), AllocError> {
    for _ in 0..times {
        text.extend_from_slice(part)?;
    }
    Ok(())
}

// One of 256 names.
fn put_name(text: &mut Vec<u8>, number: usize) -> Result<(), AllocError> {
    let letters = [
        b'A', b'B', b'C', b'D', b'E', b'F', b'G', b'H', b'I', b'J', b'K', b'L', b'M', b'N', b'O',
        b'P',
    ];
    text.push(letters[number / 16 % 16])?;
    text.push(letters[number % 16])?;
    Ok(())
}

// So many definitions beside RULE; each stands for two of the one after it.
fn doubled(alloc: Global, levels: usize) -> Result<Vec<u8>, AllocError> {
    let mut text = Vec::new(alloc);
    put(&mut text, b"RULE = AA", 1)?;
    for level in 0..levels {
        put(&mut text, b"\n", 1)?;
        put_name(&mut text, level)?;
        put(&mut text, b" = ", 1)?;
        put_name(&mut text, (level + 1) % 256)?;
        put(&mut text, b" and ", 1)?;
        put_name(&mut text, (level + 1) % 256)?;
    }
    Ok(text)
}

// So many operands in a chain.
fn chain(alloc: Global, operands: usize) -> Result<Vec<u8>, AllocError> {
    let mut text = Vec::new(alloc);
    put(&mut text, b"RULE = A", 1)?;
    if operands > 1 {
        put(&mut text, b" and A", operands - 1)?;
    }
    Ok(text)
}

// So many atoms, of which one stands twice.
fn distinct(alloc: Global, atoms: usize) -> Result<Vec<u8>, AllocError> {
    let mut text = Vec::new(alloc);
    put(&mut text, b"RULE = AA", 1)?;
    for number in 0..atoms {
        put(&mut text, b" or ", 1)?;
        put_name(&mut text, number)?;
    }
    Ok(text)
}

// So many parentheses, and so many operators in them.
fn opened(alloc: Global, marks: usize, operators: usize) -> Result<Vec<u8>, AllocError> {
    let mut text = Vec::new(alloc);
    put(&mut text, b"RULE = ", 1)?;
    put(&mut text, b"(", marks)?;
    put(&mut text, b"not ", operators)?;
    put(&mut text, b"A", 1)?;
    put(&mut text, b")", marks)?;
    Ok(text)
}

// So many `weak_until` in one another, each on the right of the one around it.
fn waiting(alloc: Global, levels: usize) -> Result<Vec<u8>, AllocError> {
    let mut text = Vec::new(alloc);
    put(&mut text, b"RULE = ", 1)?;
    put(&mut text, b"A weak_until (", levels)?;
    put(&mut text, b"B", 1)?;
    put(&mut text, b")", levels)?;
    Ok(text)
}

// A rule and a comment, of so many bytes.
fn padded(alloc: Global, bytes: usize) -> Result<Vec<u8>, AllocError> {
    let mut text = Vec::new(alloc);
    put(&mut text, b"RULE = A #", 1)?;
    if bytes > 10 {
        put(&mut text, b"x", bytes - 10)?;
    }
    Ok(text)
}

#[test]
fn the_first_fault_of_a_text_is_its_refusal(rt: HostRuntime) -> Result<(), Fail> {
    const CASES: &[(&str, u8)] = &[
        ("RULE = A", 0),
        ("# a comment\nRULE\t=\r\nnot(A)or_", 9),
        ("RULE = not not A and B and always C", 0),
        ("RULE = A and B or C", 9),
        ("RULE = A until B until C", 9),
        ("RULE = (A until B) until C", 0),
        ("RULE = A release B", 0),
        ("RULE = A release B until C", 9),
        ("RULE = A release B release C", 9),
        ("RULE = A weak_until B weak_until C", 9),
        ("RULE = A weak_until (B release C)", 0),
        ("RULE = A weak until B", 9),
        ("RULE = A Release B", 9),
        ("RULE = RELEASE and WEAK_UNTIL", 0),
        ("RULE = a", 9),
        ("RULE = (A", 9),
        ("RULE = A;", 9),
        ("RULE", 9),
        ("", 10),
        ("RULES = A", 10),
        ("X = A", 10),
        ("B = A\nB = A", 10),
        ("RULE = A\nRULE = B", 11),
        ("RULE = A\nA = B\nA = B", 11),
        ("RULE = A\nA = always B\nB = A", 12),
        ("RULE = A\nB = not C\nC = B", 12),
        ("RULE = RULE", 12),
    ];
    for &(text, number) in CASES {
        assert!(rt;
            refusal_of(read_ltl(rt.alloc(), text.as_bytes())) == number,
            "at {text}"
        );
    }
    Ok(())
}

// What grows in a text.
#[derive(Clone, Copy, Drop)]
enum RuleGrowth {
    Chain,
    Parentheses,
    Operators,
    // One operator in so many parentheses.
    Around,
    Atoms,
    Definitions,
    // Each level weighs 3 more than twice the one in it.
    Levels,
    Bytes,
}

// The text with so many of them.
fn grown(alloc: Global, grows: RuleGrowth, count: usize) -> Result<Vec<u8>, AllocError> {
    match grows {
        RuleGrowth::Chain => chain(alloc, count),
        RuleGrowth::Parentheses => opened(alloc, count, 0),
        RuleGrowth::Operators => opened(alloc, 0, count),
        RuleGrowth::Around => opened(alloc, count, 1),
        RuleGrowth::Atoms => distinct(alloc, count),
        RuleGrowth::Definitions => doubled(alloc, count),
        RuleGrowth::Levels => waiting(alloc, count),
        RuleGrowth::Bytes => padded(alloc, count),
    }
}

#[test]
fn each_limit_is_the_last_that_is_accepted(rt: HostRuntime) -> Result<(), Fail> {
    const CASES: &[(RuleGrowth, usize, u8)] = &[
        (RuleGrowth::Chain, 256, 0),
        (RuleGrowth::Chain, 257, 9),
        (RuleGrowth::Parentheses, 256, 0),
        (RuleGrowth::Parentheses, 257, 9),
        (RuleGrowth::Operators, 256, 0),
        (RuleGrowth::Around, 256, 9),
        (RuleGrowth::Atoms, 32, 0),
        (RuleGrowth::Atoms, 33, 13),
        (RuleGrowth::Definitions, 9, 0),
        (RuleGrowth::Definitions, 10, 14),
        (RuleGrowth::Definitions, 255, 14),
        (RuleGrowth::Definitions, 256, 9),
        (RuleGrowth::Levels, 8, 0),
        (RuleGrowth::Levels, 9, 14),
        (RuleGrowth::Bytes, 1_048_576, 0),
        (RuleGrowth::Bytes, 1_048_577, 9),
    ];
    for &(grows, count, number) in CASES {
        let text = grown(rt.alloc(), grows, count)?;
        assert!(rt;
            refusal_of(read_ltl(rt.alloc(), &text)) == number,
            "at {count}"
        );
    }
    Ok(())
}

// Whether it is `C or A or always B`, grouped from the left.
fn groups_from_the_left(formula: &Formula) -> bool {
    match formula {
        Formula::Or(left, right) => match (&**left, &**right) {
            (Formula::Or(first, second), Formula::Always(_)) => {
                matches!(**first, Formula::Atom(2)) && matches!(**second, Formula::Atom(0))
            }
            _ => false,
        },
        _ => false,
    }
}

#[test]
fn atoms_ascend_and_chains_group_from_the_left(rt: HostRuntime) -> Result<(), Fail> {
    let rule = read_ltl(rt.alloc(), b"B2 = C\nRULE = B2 or A or always B")?;
    assert!(rt; rule.atoms.len() == 3 && groups_from_the_left(&rule.formula));
    Ok(())
}
