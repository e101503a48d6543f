//! Whole texts: the wanted refusals and canonical texts were worked out by hand.
use crate::drawing::redrawn;
use crate::numbers::refusal_of;
use rv_dot::read_dot;
use rv_reference::worked::WIP_MODEL;
use std::alloc::{AllocError, Global};
use std::test::Fail;

/// The canonical text of wip.
const WIP_CANONICAL: &[u8] = b"digraph state_automaton {
\tcenter = true;
\tsize = \"7,11\";
\t{node [shape = plaintext, style=invis, label=\"\"] \"__init_preemptive\"};
\t{node [shape = doublecircle] \"preemptive\"};
\t{node [shape = circle] \"non_preemptive\"};
\t\"__init_preemptive\" -> \"preemptive\";
\t\"preemptive\" [label = \"preemptive\"];
\t\"non_preemptive\" [label = \"non_preemptive\"];
\t\"preemptive\" -> \"non_preemptive\" [ label = \"preempt_disable\" ];
\t\"non_preemptive\" -> \"preemptive\" [ label = \"preempt_enable\" ];
\t\"non_preemptive\" -> \"non_preemptive\" [ label = \"sched_waking\" ];
}
";

/// A name of its own for each number.
fn put_name(out: &mut Vec<u8>, number: u8) -> Result<(), AllocError> {
    out.extend_from_slice(b" n")?;
    out.extend_from_slice(&[
        b'0' + number / 100,
        b'0' + number / 10 % 10,
        b'0' + number % 10,
    ])
}

/// An automaton with so many states and no event.
fn states(alloc: Global, count: u8) -> Result<Vec<u8>, AllocError> {
    let mut out = Vec::new(alloc);
    out.extend_from_slice(b"digraph g { __init_ -> n000; {node []")?;
    for place in 0..count {
        put_name(&mut out, place)?;
    }
    out.extend_from_slice(b"} }")?;
    Ok(out)
}

/// An automaton with one state and so many events.
fn events(alloc: Global, count: u8) -> Result<Vec<u8>, AllocError> {
    let mut out = Vec::new(alloc);
    out.extend_from_slice(b"digraph g { __init_ -> a {node [] a}")?;
    for place in 0..count {
        out.extend_from_slice(b" a -> a [label =")?;
        put_name(&mut out, place)?;
        out.extend_from_slice(b"]")?;
    }
    out.extend_from_slice(b" }")?;
    Ok(out)
}

/// A text, so many times the byte, and a text.
fn filled(
    alloc: Global,
    front: &[u8],
    byte: u8,
    count: usize,
    back: &[u8],
) -> Result<Vec<u8>, AllocError> {
    let mut out = Vec::new(alloc);
    out.extend_from_slice(front)?;
    for _ in 0..count {
        out.extend_from_slice(&[byte])?;
    }
    out.extend_from_slice(back)?;
    Ok(out)
}

#[test]
fn texts_have_the_first_refusal_that_applies(rt: HostRuntime) -> Result<(), Fail> {
    const CASES: &[(&[u8], u8)] = &[
        (b"", 2),
        (b"digraph g {", 2),
        (b"digraph \"g\" { }", 2),
        (b"digraph g { };", 2),
        (b"digraph g { }", 3),
        (b"digraph node { node = x { node = x a } edge = edge }", 3),
        (
            b"digraph g { {node [shape=circle] a b} __init_a -> a; __init_b -> b }",
            4,
        ),
        (
            b"digraph g { {node [shape=circle] a b} __init_a -> a; __init_b -> a }",
            0,
        ),
        (b"digraph g { __init_a -> a }", 5),
        (
            b"digraph g { {node [] a} __init_a -> a; a -> b [label=e] }",
            5,
        ),
        (
            b"digraph g { {node [] a __init_a} __init_a -> a; a -> __init_a [label=e] }",
            5,
        ),
        (
            b"digraph g { {node [] a b} __init_ -> a; a -> b [label=x] a -> a [label=x] }",
            6,
        ),
        (
            b"digraph g { {node [] a b} __init_ -> a; a -> b [label=x] a -> b [label=x] }",
            0,
        ),
        (
            b"digraph g { {node [] a b} __init_ -> a; a -> b [label=x] b -> b [label=\" y \\n\\tx\"] }",
            2,
        ),
        (
            b"digraph g { {node [] a b} __init_ -> a; a -> b [label=x] b -> b [label=\" y \\n\tx\"] }",
            0,
        ),
        (
            b"digraph g { {node [] a} __init_ -> a; a -> a [label=\"x\\n\\ny\"] }",
            2,
        ),
        (
            b"digraph g { {node [] a} __init_ -> a; a -> a [label=\"x,y\"] }",
            2,
        ),
        (
            b"digraph g { {node [] a} __init_ -> a; a -> a [label=x.y] }",
            2,
        ),
        (b"digraph g { {node [] a} __init_ -> a; a -> a }", 2),
        (
            b"digraph g { {node [] a} __init_ -> a; a -> a [label=x label=y, label=x;] a -> a [label=y] }",
            0,
        ),
        (b"digraph g { {node [] a} __init_ -> a [label=\"\"] }", 0),
        (b"digraph g { {node [] a} __init_ -> a [label=\" \"] }", 2),
        (
            b"digraph g { {node [] \"__init,x\" \"a,b\"} \"__init,x\" -> a_b }",
            0,
        ),
        (b"digraph g { {node [] \"a-b\"} __init_ -> a }", 2),
        (b"digraph g { {node [] \"\"} __init_ -> a }", 2),
        (b"digraph g { {node []} __init_ -> a }", 2),
        (b"digraph g { {node [] a}; __init_ -> a;; }", 2),
        (b"digraph g { {node [] node} }", 2),
        (
            b"digraph g { {node [] a} // }\n __init_ -> a /* } */ }\n# end",
            0,
        ),
        (b"digraph g { {node [] a} __init_ -> a } # end", 2),
        (b"digraph g { {node [\n# shape = x\n] a} __init_ -> a }", 0),
        (b"digraph g { {node [] a} __init_ -> a /*/ }", 2),
        (b"digraph g { {node [] a} __init_ -> a /* }", 2),
        (b"digraph g { {node [] a} __init_ -> a \"a }", 2),
        (b"digraph g { {node [] a} __init_ -> a; \"a\\\" }", 2),
        (b"digraph\rg\r{\r\n{node\t[]a}__init_->a}", 0),
        (b"digraph g { {node [] a} __init_ -> a \0 }", 2),
        (b"digraph g { {node [] a} __init_ - > a }", 2),
    ];
    for &(text, wanted) in CASES {
        assert!(rt;
            refusal_of(read_dot(rt.alloc(), text)) == wanted,
            "at {text:?}"
        );
    }
    Ok(())
}

#[test]
fn a_file_is_read_up_to_its_last_brace_and_not_before(rt: HostRuntime) -> Result<(), Fail> {
    let text = WIP_MODEL.as_bytes();
    for len in 0..text.len() + 1 {
        let wanted = if len + 1 < text.len() { 2 } else { 0 };
        assert!(rt;
            refusal_of(read_dot(rt.alloc(), &text[..len])) == wanted,
            "at {len}"
        );
    }
    Ok(())
}

/// What grows in a text.
#[derive(Clone, Copy, Drop)]
enum DotGrowth {
    States,
    Events,
    /// This byte, between two texts.
    Byte(u8, &'static [u8], &'static [u8]),
}

/// The text with so many of them.
fn grown(alloc: Global, grows: DotGrowth, count: usize) -> Result<Vec<u8>, AllocError> {
    match grows {
        DotGrowth::States => states(alloc, u8::try_from(count).unwrap_or(0)),
        DotGrowth::Events => events(alloc, u8::try_from(count).unwrap_or(0)),
        DotGrowth::Byte(byte, front, back) => filled(alloc, front, byte, count, back),
    }
}

#[test]
fn the_limits_of_states_events_and_bytes_are_exact(rt: HostRuntime) -> Result<(), Fail> {
    // the front has 37 bytes
    const BLANKS: DotGrowth = DotGrowth::Byte(b' ', b"digraph g { {node [] a} __init_ -> a ", b"}");
    const BRACES: DotGrowth = DotGrowth::Byte(b'{', b"digraph g { {node [] a} __init_ -> a ", b"}");
    const NAMES: DotGrowth = DotGrowth::Byte(b'n', b"digraph g { {node [] ", b"} }");
    const CASES: &[(DotGrowth, usize, u8)] = &[
        (DotGrowth::States, 31, 0),
        (DotGrowth::States, 32, 7),
        (DotGrowth::Events, 64, 0),
        (DotGrowth::Events, 65, 8),
        (BLANKS, 1_048_538, 0),
        (BLANKS, 1_048_539, 2),
        (BRACES, 100_000, 2),
        (NAMES, 64, 3),
        (NAMES, 65, 2),
    ];
    for &(grows, count, wanted) in CASES {
        let text = grown(rt.alloc(), grows, count)?;
        assert!(rt;
            refusal_of(read_dot(rt.alloc(), &text)) == wanted,
            "at {count}"
        );
    }
    Ok(())
}

#[test]
fn a_kernel_model_has_its_canonical_text(rt: HostRuntime) -> Result<(), Fail> {
    for text in [WIP_MODEL.as_bytes(), WIP_CANONICAL] {
        assert!(rt; redrawn(rt.alloc(), text)?.as_slice() == WIP_CANONICAL);
    }
    Ok(())
}
