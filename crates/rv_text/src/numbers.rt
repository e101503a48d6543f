//! Every refusal by its number, in order, each with the exact condition under which it comes.
//! Limits are part of a condition, so that an input one byte inside them is accepted.

/// The words of the command line have none of the forms of `rv`.
pub const USAGE: u8 = 1;

/// An automaton file is over 1,048,576 bytes, is not of the grammar, or breaks a rule on labels or names.
pub const DOT_SYNTAX: u8 = 2;

/// Else, no edge leaves a marker.
pub const NO_INITIAL: u8 = 3;

/// Else, edges from markers have two different targets.
pub const TWO_INITIALS: u8 = 4;

/// Else, an end of an edge, other than the marker that an edge leaves, is no declared state.
pub const UNDECLARED_STATE: u8 = 5;

/// Else, a state and an event have two different targets.
pub const NOT_DETERMINISTIC: u8 = 6;

/// Else, there are more than 31 states.
pub const TOO_MANY_STATES: u8 = 7;

/// Else, there are more than 64 events.
pub const TOO_MANY_EVENTS: u8 = 8;

/// A rule file is over 1,048,576 bytes or not of the grammar, or has more than 256 definitions, operands of a
/// chain, or parentheses and unary operators that are open at one place.
pub const LTL_SYNTAX: u8 = 9;

/// Else, RULE is not defined.
pub const NO_RULE: u8 = 10;

/// Else, a name is defined twice.
pub const DEFINED_TWICE: u8 = 11;

/// Else, a defined name reaches itself, whether or not RULE reaches it.
pub const CYCLE: u8 = 12;

/// Else, RULE reaches more than 32 atoms.
pub const TOO_MANY_ATOMS: u8 = 13;

/// Else, the weight of RULE is over 1,024.
pub const TOO_BIG: u8 = 14;

/// The normal form has more than 64 parts.
pub const TOO_MANY_PARTS: u8 = 15;

/// An obligation set has a branch number over 4,096.
pub const TOO_WIDE: u8 = 16;

/// The table has more than 31 nodes.
pub const TOO_MANY_NODES: u8 = 17;

/// A line of bindings ends past byte 1,048,576, has none of the forms, names an unknown monitor or container, or
/// is the 33rd container.
pub const BIND_SYNTAX: u8 = 18;

/// Else, a container or a monitor has a name that one has already.
pub const NAME_TWICE: u8 = 19;

/// An `on` line of an automaton's monitor names an event that is not the automaton's.
pub const UNKNOWN_EVENT: u8 = 20;

/// An `on` or `begin` line of a formula's monitor names an atom that is not the rule's.
pub const UNKNOWN_ATOM: u8 = 21;

/// The line is the 33rd monitor.
pub const TOO_MANY_MONITORS: u8 = 22;

/// The line is the 257th rule.
pub const TOO_MANY_RULES: u8 = 23;

/// A trace line that is not skipped has no head, time stamp or event, or its PID is over 4,294,967,295.
pub const TRACE_SYNTAX: u8 = 24;

/// A trace line begins with `CPU:` and ends with `EVENTS]`: the kernel has lost events.
pub const LOST_EVENTS: u8 = 25;

/// A trace line's CPU is 64 or more.
pub const TOO_MANY_CPUS: u8 = 26;

/// A trace line's number is over 1,000,000, or it ends past byte 134,217,728, its line end included.
pub const TOO_LONG: u8 = 27;

/// The task would be the 65,537th.
pub const TOO_MANY_TASKS: u8 = 28;

/// A rule's `by` field has no value, or one that is no decimal of at most 4,294,967,295.
pub const NO_PID: u8 = 29;

/// The delivery would be the 4,000,001st.
pub const TOO_MANY_DELIVERIES: u8 = 30;

/// A line of a control script has none of the forms, or ends past byte 1,048,576.
pub const CONTROL_SYNTAX: u8 = 31;

/// The control tree has no file of this path.
pub const NO_SUCH_FILE: u8 = 32;

/// The file does not take this text; or, of a script beside a run, the command is a read, or a write to a `reactors` file.
pub const INVALID: u8 = 33;

/// A run can't be recorded: the rows and the atoms of a monitor are more than 32 together, its reactor is panic, or a rule ends its instances.
pub const NOT_NUMBERED: u8 = 34;

/// C tables can't be written: a state's name has a `.`, a state's or an event's name begins with a digit, a state and an
/// event have one name, or a name is `state_max`, `event_max` or `automaton`.
pub const NO_HEADER: u8 = 35;

/// The text is not that of the C tables of any automaton.
pub const HEADER_SYNTAX: u8 = 36;

/// The monitor is no display name; or the instance is not 0 of a global monitor, no CPU up to 63 of a cpu monitor, or no pid of a task that has deliveries.
pub const NO_INSTANCE: u8 = 37;
