//! Whole texts: the tables of wip were given, and the others were worked out by hand.
use crate::numbers::refusal_of;
use rv_dot::{read_dot, write_dot};
use rv_header::{is_header_name, read_header, write_header};
use rv_model::Automaton;
use rv_text::Refused;
use std::alloc::{AllocError, Global};
use std::process::Abort;
use std::test::Fail;

/// Preemption is off wherever a task is woken.
const WIP: &[u8] = b"digraph state_automaton {
\t{node [shape = plaintext, style=invis, label=\"\"] \"__init_preemptive\"};
\t{node [shape = doublecircle] \"preemptive\"};
\t{node [shape = circle] \"non_preemptive\"};
\t\"__init_preemptive\" -> \"preemptive\";
\t\"preemptive\" -> \"non_preemptive\" [ label = \"preempt_disable\" ];
\t\"non_preemptive\" -> \"preemptive\" [ label = \"preempt_enable\" ];
\t\"non_preemptive\" -> \"non_preemptive\" [ label = \"sched_waking\" ];
}
";

/// Its tables.
const WIP_TABLES: &[u8] = b"enum states_wip {
\tpreemptive_wip = 0,
\tnon_preemptive_wip,
\tstate_max_wip
};
#define INVALID_STATE state_max_wip
enum events_wip {
\tpreempt_disable_wip = 0,
\tpreempt_enable_wip,
\tsched_waking_wip,
\tevent_max_wip
};
struct automaton_wip {
\tchar *state_names[state_max_wip];
\tchar *event_names[event_max_wip];
\tunsigned char function[state_max_wip][event_max_wip];
\tunsigned char initial_state;
\tbool final_states[state_max_wip];
};
static const struct automaton_wip automaton_wip = {
\t.state_names = { \"preemptive\", \"non_preemptive\" },
\t.event_names = { \"preempt_disable\", \"preempt_enable\", \"sched_waking\" },
\t.function = {
\t\t{ non_preemptive_wip, INVALID_STATE, INVALID_STATE },
\t\t{ INVALID_STATE, preemptive_wip, non_preemptive_wip },
\t},
\t.initial_state = preemptive_wip,
\t.final_states = { 1, 0 },
};
";

/// One state and no event.
const ONE: &[u8] = b"digraph state_automaton {
\t\"__init_a\" -> \"a\";
\t{node [shape = doublecircle] \"a\"};
}
";

/// Its tables.
const ONE_TABLES: &[u8] = b"enum states_1 {
\ta_1 = 0,
\tstate_max_1
};
#define INVALID_STATE state_max_1
enum events_1 {
\tevent_max_1 = 0
};
struct automaton_1 {
\tchar *state_names[state_max_1];
\tchar *event_names[event_max_1];
\tunsigned char function[state_max_1][event_max_1];
\tunsigned char initial_state;
\tbool final_states[state_max_1];
};
static const struct automaton_1 automaton_1 = {
\t.state_names = { \"a\" },
\t.event_names = { },
\t.function = {
\t\t{ },
\t},
\t.initial_state = a_1,
\t.final_states = { 1 },
};
";

/// The canonical file of an automaton behind its name and a colon.
fn named(alloc: Global, name: &[u8], automaton: &Automaton) -> Result<Vec<u8>, Refused> {
    let drawing = write_dot(alloc, automaton)?;
    let mut text = Vec::from_slice(alloc, name)?;
    text.push(b':')?;
    text.extend_from_slice(drawing.as_slice())?;
    Ok(text)
}

/// The name and the automaton of tables that are read back, as `named` gives them.
fn read_again(alloc: Global, tables: &[u8]) -> Result<Vec<u8>, Refused> {
    let header = read_header(alloc, tables)?;
    named(alloc, header.name.bytes(), &header.automaton)
}

/// Whether the automaton's tables are this text, and are read back as the name and the automaton.
fn agrees(
    rt: &impl Abort,
    alloc: Global,
    name: &str,
    dot: &[u8],
    tables: &[u8],
) -> Result<bool, Fail> {
    assert!(rt; is_header_name(name.as_bytes()));
    let automaton = read_dot(alloc, dot)?;
    let text = write_header(alloc, name.as_bytes(), &automaton)?;
    let wanted = named(alloc, name.as_bytes(), &automaton)?;
    let found = read_again(alloc, tables)?;
    Ok(text.as_slice() == tables && found.as_slice() == wanted.as_slice())
}

#[test]
fn tables_are_printed_and_read_again(rt: HostRuntime) -> Result<(), Fail> {
    for (name, dot, tables) in [("wip", WIP, WIP_TABLES), ("1", ONE, ONE_TABLES)] {
        assert!(rt; agrees(&rt, rt.alloc(), name, dot, tables)?, "at {name}");
    }
    Ok(())
}

/// The file of one state with one event.
fn drawn(alloc: Global, state: &str, event: &str) -> Result<Vec<u8>, AllocError> {
    let text = format!(in alloc;
        "digraph state_automaton {{\n\t\"__init_{state}\" -> \"{state}\";\n\t{{node [shape = circle] \"{state}\"}};\n\t\"{state}\" -> \"{state}\" [ label = \"{event}\" ];\n}}\n"
    )?;
    Ok(text.into_bytes())
}

/// The tables of a file's automaton.
fn written(alloc: Global, dot: &[u8]) -> Result<Vec<u8>, Refused> {
    let automaton = read_dot(alloc, dot)?;
    write_header(alloc, b"m", &automaton)
}

#[test]
fn names_are_refused(rt: HostRuntime) -> Result<(), Fail> {
    const CASES: &[(&str, &str, u8)] = &[
        ("a.b", "e", 35),
        ("1a", "e", 35),
        ("a", "1e", 35),
        ("e", "e", 35),
        ("state_max", "e", 35),
        ("a", "state_max", 35),
        ("event_max", "e", 35),
        ("a", "event_max", 35),
        ("automaton", "e", 35),
        ("a", "automaton", 35),
        ("a_b", "e", 0),
        ("a1", "e", 0),
        ("a", "e1", 0),
        ("e", "f", 0),
        ("state_maxx", "e", 0),
        ("a", "state_ma", 0),
        ("event", "max", 0),
        ("INVALID_STATE", "automata", 0),
    ];
    for &(state, event, wanted) in CASES {
        let dot = drawn(rt.alloc(), state, event)?;
        let number = refusal_of(written(rt.alloc(), dot.as_slice()));
        assert!(rt; number == wanted, "at {state}, {event}");
    }
    Ok(())
}

#[test]
fn each_changed_byte_is_refused(rt: HostRuntime) -> Result<(), Fail> {
    let mut text = Vec::from_slice(rt.alloc(), WIP_TABLES)?;
    for place in 0..text.len() {
        let byte = text[place];
        text[place] = byte ^ 2;
        assert!(rt;
            refusal_of(read_header(rt.alloc(), text.as_slice())) == 36,
            "at {place}"
        );
        text[place] = byte;
    }
    for other in [b"".as_slice(), WIP, &WIP_TABLES[..700]] {
        assert!(rt; refusal_of(read_header(rt.alloc(), other)) == 36);
    }
    Ok(())
}
